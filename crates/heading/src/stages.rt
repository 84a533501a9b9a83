// The stages of reading the heading of a file, in the order of their refusals.
ghost use Rattle.std.specs.Prelude.{◌≡◌};
ghost use Rattle.partial.specs.Heading.{heading};
ghost use Rattle.heading.specs.Facts.{told, headed_answer};

use crate::answers::Head;
use crate::find::box_at;
use crate::ftyp::{brand_right, ftyp_right, has_brand};
use crate::pfil::{inner_of, pfil_right};
use boxes::body::Body;
use boxes::kinds::Container;
use numerals::place::Place;
use partial::brand::PMFF;
use partial::limits::FILE_LIMIT;
use refusals::Refusal;
use tallying::counting::tally;

// What the heading of a file tells the layers above, or its first refusal.
pub fn heading_of(file: &[u8]) -> Result<Head, Refusal>
    ensures { headed_answer result ≡ told file.now (heading file.now) }
{
    let end = Place(file.len() as u64);
    if FILE_LIMIT < end.0 {
        return Err(Refusal::FileTooLong);
    }
    let body = Body {
        container: Container::File,
        start: Place(0),
        end,
    };
    let boxes = tally(file, body)?;
    let first = box_at(file, body, 0).ok_or(Refusal::FtypWrong)?;
    if !ftyp_right(first, boxes) {
        return Err(Refusal::FtypWrong);
    }
    let mixed = has_brand(file, first, PMFF);
    if !brand_right(file, first, mixed) {
        return Err(Refusal::BrandMissing);
    }
    let second = box_at(file, body, 1).ok_or(Refusal::PfilWrong)?;
    if !pfil_right(second, boxes) {
        return Err(Refusal::PfilWrong);
    }
    inner_of(file, second, boxes, mixed)
}
