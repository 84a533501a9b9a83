// The boxes that may stand outside `pdat` as a chunk of a mixed file.
ghost use Rattle.std.specs.Prelude.{◌≡◌};
ghost use Rattle.boxes.specs.Framing.{box_of};
ghost use Rattle.partial.specs.Mixed.{allowed};

use boxes::framing::Framed;
use boxes::kinds::{FTYP, PDAT, PFIL, PSEG};

// Whether a box may be such a chunk, or one of several: it is none of those that a partial file is made of.
pub fn may_stand(b: Framed) -> bool
    ensures { result ≡ allowed (box_of b) }
{
    let kind = b.kind;
    if kind == FTYP || kind == PFIL || kind == PSEG {
        return false;
    }
    kind != PDAT
}
