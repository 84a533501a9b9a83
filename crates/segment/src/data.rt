// Where a chunk lies: the data box of a file that holds it.
ghost use Rattle.std.specs.Prelude.{◌≡◌};
ghost use Rattle.boxes.specs.Framing.{box_of};
ghost use Rattle.segment.specs.Data.{holds_chunk, Finds};

use crate::tops::{TOPS, top_at, top_before};
use boxes::framing::{Framed, header_at};
use boxes::kinds::{Container, Kind, PDAT};
use numerals::order::ends_by;
use numerals::place::Place;

// No box, to be looked at first where none held a chunk yet: it is no `pdat`, and so holds none. An option in its place
// is copied through memory for each chunk.
pub const NO_BOX: Framed = Framed {
    kind: Kind { code: 0 },
    at: Place(0),
    user: Place(0),
    body: Place(0),
    end: Place(0),
};

// Whether a box is a `pdat` whose body holds so many bytes at a place.
fn holds(b: Framed, place: Place, size: u64) -> bool
    ensures { result ≡ holds_chunk place.0 size (box_of b) }
{
    let body = b.body;
    let end = b.end;
    if b.kind != PDAT {
        return false;
    }
    if place.0 < body.0 {
        return false;
    }
    ends_by(place.0, size, end.0)
}

// The data box of a file that holds so many bytes at a place, by the table of the file's boxes: the last one that starts
// before it, if any. A function of its own, so that what it makes ready is not made ready for each chunk.
fn found_at(s: &[u8], tops: &[u32; TOPS], place: Place, size: u64) -> Option<Framed>
    ensures { (last : Framed) → Finds s.now tops.now last place.0 size result }
{
    let number = top_before(tops, place);
    let top = top_at(tops, number);
    let Ok(b) = header_at(s, Container::File, Place(top), Place(s.len() as u64)) else {
        return None;
    };
    if holds(b, place, size) { Some(b) } else { None }
}

// The data box of a file that holds so many bytes at a place, by the table of the file's boxes. Chunks often follow
// each other in one box, so the box that held the last one is looked at first.
pub fn held_at(
    s: &[u8],
    tops: &[u32; TOPS],
    last: Framed,
    place: Place,
    size: u64,
) -> Option<Framed>
    ensures { Finds s.now tops.now last place.0 size result }
{
    if holds(last, place, size) {
        return Some(last);
    }
    found_at(s, tops, place, size)
}
