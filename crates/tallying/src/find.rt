// The first box of a kind, looked for in a container whose framing is known to be right.
ghost use Rattle.std.specs.Prelude.{List, ◌≡◌};
ghost use Rattle.boxes.specs.Answer.{given};
ghost use Rattle.boxes.specs.Bodies.{boxes_of};
ghost use Rattle.boxes.specs.Framing.{Box};
ghost use Rattle.boxes.specs.Kinds.{those};
ghost use Rattle.tallying.specs.Found.{found_of, first_in};

use boxes::body::Body;
use boxes::framing::Framed;
use boxes::kinds::Kind;
use boxes::walk::Walk;

// The first box of a kind in a container, if it has one.
pub fn first_of(file: &[u8], body: Body, kind: Kind) -> Option<Framed>
    ensures { (bs : List Box) → boxes_of file.now body ≡ given bs → found_of result ≡ first_in (those kind bs) }
{
    let mut walk = Walk::new(body);
    while let Some((b, next)) = walk.step(file).ok()? {
        if b.kind == kind {
            return Some(b);
        }
        walk = next;
    }
    None
}
