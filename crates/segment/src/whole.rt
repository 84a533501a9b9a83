// Whole boxes, as which a good chunk of a mixed file may lie outside `pdat`.
ghost use Rattle.std.specs.Prelude.{List, ◌≡◌, length};
ghost use Rattle.boxes.specs.Answer.{given};
ghost use Rattle.boxes.specs.Framing.{Box, boxes_in};
ghost use Rattle.boxes.specs.declared.kinds.Container.TheVariants.{File};
ghost use Rattle.partial.specs.Mixed.{fill_up, whole_boxes};
ghost use Rattle.segment.specs.Tops.{Tops, Listed};

use crate::tops::{TOPS, top_at, top_before};
use boxes::body::Body;
use boxes::kinds::Container;
use boxes::walk::Walk;
use fields::allowed::may_stand;
use numerals::place::Place;

// Whether the boxes of a file from the one at a place on are allowed up to one that ends there.
fn fill_up(s: &[u8], place: Place, end: Place) -> bool
    ensures { (bs : List Box) → boxes_in File s.now place.0 (length s.now) ≡ given bs → result ≡ fill_up bs end.0 }
{
    let mut walk = Walk::new(Body {
        container: Container::File,
        start: place,
        end: Place(s.len() as u64),
    });
    while let Some((b, next)) = walk.step(s).unwrap_or(None) {
        let at = b.end;
        if !may_stand(b) {
            return false;
        }
        if end.0 <= at.0 {
            return at.0 == end.0;
        }
        walk = next;
    }
    false
}

// Whether a place stands in a table of places: it is the first, or follows the last one before it.
fn starts(tops: &[u32; TOPS], place: Place) -> bool
    ensures { Listed tops.now place.0 result }
{
    let number = top_before(tops, place);
    if top_at(tops, number) == place.0 {
        return true;
    }
    if number + 1 == TOPS {
        return false;
    }
    top_at(tops, number + 1) == place.0
}

// Whether exactly one or several neighbouring whole boxes stand from a place up to an end, all of them allowed, by the
// table of the file's boxes.
pub fn whole_at(s: &[u8], tops: &[u32; TOPS], place: Place, end: Place) -> bool
    ensures { (bs : List Box) → boxes_in File s.now 0 (length s.now) ≡ given bs → Tops bs tops.now → result ≡ whole_boxes bs place.0 end.0 }
{
    if !starts(tops, place) {
        return false;
    }
    fill_up(s, place, end)
}
