// Refusals 7 and 8: the `ftyp` box and its compatible brands.
ghost use Rattle.std.specs.Prelude.{List, ◌≡◌};
ghost use Rattle.boxes.specs.Framing.{Box, box_of};
ghost use Rattle.boxes.specs.Kinds.{box_at};
ghost use Rattle.tallying.specs.Rules.{tally_of};
ghost use Rattle.partial.specs.Heading.{ftyp_right, branded, pmff, brand_right};

use boxes::framing::Framed;
use boxes::kinds::{Container, FTYP};
use numerals::numbers::unsigned;
use numerals::place::Place;
use partial::brand::PAFF;
use tallying::rules::keeps;
use tallying::tally::Tally;

// The bytes of the major brand and the minor version, which stand before the compatible brands.
const BRANDS_FROM: u64 = 8;
// The bytes of a brand.
const BRAND_SIZE: u64 = 4;

// Whether the first box of the file is a well-formed `ftyp`, and the only one.
pub(crate) fn ftyp_right(b: Framed, boxes: Tally) -> bool
    ensures { (bs : List Box) → boxes ≡ tally_of bs → box_of b ≡ box_at 0 bs → result ≡ ftyp_right bs }
{
    let size = b.end.0.saturating_sub(b.body.0);
    if b.kind != FTYP {
        return false;
    }
    if size < BRANDS_FROM {
        return false;
    }
    if size % BRAND_SIZE != 0 {
        return false;
    }
    keeps(Container::File, FTYP, boxes.of(FTYP))
}

// Whether one of the compatible brands, which run to the end, is that one.
pub(crate) fn has_brand(file: &[u8], b: Framed, brand: u64) -> bool
    ensures { (bs : List Box) → box_of b ≡ box_at 0 bs → result ≡ branded brand file.now bs }
{
    let from = b.body.0.saturating_add(BRANDS_FROM);
    let brands = b.end.0.saturating_sub(from) / BRAND_SIZE;
    for i in 0..brands {
        if unsigned(file, Place(from + BRAND_SIZE * i), 4) == brand {
            return true;
        }
    }
    false
}

// Whether one of the two brands is there, of a file of which it is known whether it is mixed.
pub(crate) fn brand_right(file: &[u8], b: Framed, mixed: bool) -> bool
    ensures { (bs : List Box) → box_of b ≡ box_at 0 bs → mixed ≡ branded pmff file.now bs → result ≡ brand_right file.now bs }
{
    mixed || has_brand(file, b, PAFF)
}
