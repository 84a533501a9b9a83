// The `surl` boxes of a walk, one after the other.
ghost use Rattle.surls.specs.Next.{Goes};

use boxes::framing::Framed;
use boxes::kinds::SURL;
use boxes::walk::Walk;
use refusals::Refusal;

// The next `surl` of a walk with the walk after it, none at the container's end, or a fault.
pub(crate) fn next_surl(file: &[u8], from: Walk) -> Result<Option<(Framed, Walk)>, Refusal>
    ensures { Goes file.now from result }
{
    let mut walk = from;
    while let Some((b, next)) = walk.step(file)? {
        if b.kind == SURL {
            return Ok(Some((b, next)));
        }
        walk = next;
    }
    Ok(None)
}
