// The form of `surl` boxes.
ghost use Rattle.std.specs.Prelude.{◌≤◌, List, ◌≡◌, length};
ghost use Rattle.boxes.specs.Answer.{given};
ghost use Rattle.boxes.specs.Bodies.{boxes_of};
ghost use Rattle.boxes.specs.Framing.{Box, box_of};
ghost use Rattle.boxes.specs.Kinds.{surl, those};
ghost use Rattle.partial.specs.Heading.{surl_formed};
ghost use Rattle.partial.specs.Sequences.{all_of};
ghost use Rattle.surls.specs.Parts.{Within};

use crate::texts::mime_of;
use boxes::body::Body;
use boxes::framing::Framed;
use boxes::kinds::SURL;
use boxes::walk::Walk;
use numerals::numbers::unsigned;

// Whether a `surl` has version 0, flags 0, and two texts, each closed by a zero byte, with nothing after.
fn surl_formed(file: &[u8], b: Framed) -> bool
    requires { Within (length file.now) b }
    ensures { result ≡ surl_formed file.now (box_of b) }
{
    let body = b.body;
    if b.end.0 < body.0 + 4 {
        return false;
    }
    if unsigned(file, body, 4) != 0 {
        return false;
    }
    let mime = mime_of(file, b);
    mime.place.0 + mime.size + 1 == b.end.0
}

// Whether each `surl` of a container is well-formed.
pub fn surls_formed(file: &[u8], body: Body) -> bool
    ensures { body.end.0 ≤ length file.now → (bs : List Box) → boxes_of file.now body ≡ given bs
        → result ≡ all_of (surl_formed file.now) (those surl bs) }
{
    if (file.len() as u64) < body.end.0 {
        return false;
    }
    let mut walk = Walk::new(body);
    while let Ok(step) = walk.step(file) {
        let Some((b, next)) = step else {
            return true;
        };
        if b.kind == SURL && !surl_formed(file, b) {
            return false;
        }
        walk = next;
    }
    false
}
