// The box of a segment, looked for in a file whose boxes are known.
ghost use Rattle.std.specs.Prelude.{List, ◌≡◌, length, slice_get};
ghost use Rattle.boxes.specs.Answer.{given};
ghost use Rattle.boxes.specs.Framing.{Box, boxes_in};
ghost use Rattle.boxes.specs.Kinds.{pseg, those};
ghost use Rattle.boxes.specs.declared.kinds.Container.TheVariants.{File};
ghost use Rattle.tallying.specs.Found.{found_of};

use boxes::body::Body;
use boxes::framing::Framed;
use boxes::kinds::{Container, PSEG};
use boxes::walk::Walk;
use numerals::place::Place;

// The `pseg` box of that number, counted from 0, if the file has so many.
pub(crate) fn segment_at(file: &[u8], number: u64) -> Option<Framed>
    ensures { (bs : List Box) → boxes_in File file.now 0 (length file.now) ≡ given bs
        → found_of result ≡ slice_get (those pseg bs) number }
{
    let mut walk = Walk::new(Body {
        container: Container::File,
        start: Place(0),
        end: Place(file.len() as u64),
    });
    let mut before = number;
    while let Some((b, next)) = walk.step(file).ok()? {
        walk = next;
        if b.kind == PSEG {
            if before == 0 {
                return Some(b);
            }
            before -= 1;
        }
    }
    None
}
