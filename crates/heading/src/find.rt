// The box of a number, looked for in a container whose framing is known to be right.
ghost use Rattle.std.specs.Prelude.{List, ◌≡◌, slice_get};
ghost use Rattle.boxes.specs.Answer.{given};
ghost use Rattle.boxes.specs.Bodies.{boxes_of};
ghost use Rattle.boxes.specs.Framing.{Box};
ghost use Rattle.tallying.specs.Found.{found_of};

use boxes::body::Body;
use boxes::framing::Framed;
use boxes::walk::Walk;

// The box of that number in a container, counted from 0, if it has so many.
pub(crate) fn box_at(file: &[u8], body: Body, n: u64) -> Option<Framed>
    ensures { (bs : List Box) → boxes_of file.now body ≡ given bs → found_of result ≡ slice_get bs n }
{
    let mut walk = Walk::new(body);
    let mut left = n;
    while let Some((b, next)) = walk.step(file).ok()? {
        if left == 0 {
            return Some(b);
        }
        walk = next;
        left -= 1;
    }
    None
}
