// The `ftyp` box, as it is written.
ghost use Rattle.std.specs.Prelude.{◌≡◌};
ghost use Rattle.additions.specs.Begin.{brand_code};
ghost use Rattle.puts.specs.Boxes.{ftyp_box};
ghost use Rattle.puts.specs.Pieces.{PutsPieces};

use crate::pieces::{put_field, put_front};
use boxes::framing::FRONT_SIZE;
use boxes::kinds::FTYP;
use numerals::place::Place;
use partial::brand::{Brand, PAFF, PMFF};

// Major brand, minor version and one compatible brand, four bytes each.
const FTYP_BODY: u64 = 12;

// The bytes of the box.
pub const FTYP_SIZE: u64 = FRONT_SIZE + FTYP_BODY;

// The four bytes of a brand, as one number.
fn code_of(brand: Brand) -> u64
    ensures { result ≡ brand_code brand }
{
    match brand {
        Brand::Paff => PAFF,
        Brand::Pmff => PMFF,
    }
}

// Puts `ftyp`: the brand as major, minor 0, the brand as the one compatible.
pub fn put_ftyp(buffer: &mut [u8], at: Place, brand: Brand) -> Place
    ensures { PutsPieces buffer.old at.0 (ftyp_box brand) buffer.new result.0 }
{
    let code = code_of(brand);
    let major = put_front(buffer, at, FTYP, FTYP_BODY);
    let minor = put_field(buffer, major, 4, code);
    let compatible = put_field(buffer, minor, 4, 0);
    put_field(buffer, compatible, 4, code)
}
