// The list inside an indexed box: its framing, how many boxes it tells of, and its front part.
ghost use Rattle.std.specs.Prelude.{◌≤◌, List, [], ◌∷◌, ◌++◌, ◌≡◌};
ghost use Rattle.boxes.specs.Answer.{told_as};
ghost use Rattle.boxes.specs.Framing.{Box, box_limit, box_of};
ghost use Rattle.indexing.specs.Inner.{InnerCounted, inner_counts};

use boxes::body::Body;
use boxes::framing::Framed;
use boxes::kinds::{BIDX, Container, FRPA};
use boxes::walk::Walk;
use refusals::Refusal;
use tallying::rules::keeps;

// What is counted along a list: its `bidx` boxes, its front parts, and the bytes of the last of these.
#[derive(Clone, Copy, Default)]
pub struct InnerCounts {
    pub many: u64,
    pub parts: u64,
    pub size: u64,
}

// The counts with one box more.
fn counted(before: InnerCounts, b: Framed) -> InnerCounts
    requires { (before.many ≤ box_limit) × (before.parts ≤ box_limit) }
    ensures { (bs : List Box) → InnerCounted bs before → InnerCounted (bs ++ (box_of b ∷ [])) result }
{
    if b.kind == BIDX {
        return InnerCounts {
            many: before.many + 1,
            ..before
        };
    }
    if b.kind == FRPA {
        let from = b.body;
        let to = b.end;
        return InnerCounts {
            parts: before.parts + 1,
            size: to.0.saturating_sub(from.0),
            ..before
        };
    }
    before
}

// How many `bidx` the list of a `bidx` has and how many bytes its front part has, in one walk and without a table, since
// it is read on every level.
pub(crate) fn inner_of(file: &[u8], body: Body) -> Result<(u64, u64), Refusal>
    ensures { told_as (λ r. r) result ≡ inner_counts file.now body.start.0 body.end.0 }
{
    let list = Body {
        container: Container::Bidx,
        ..body
    };
    let mut walk = Walk::new(list);
    let mut counts = InnerCounts::default();
    while let Some((b, next)) = walk.step(file).or(Err(Refusal::IndexWrong))? {
        walk = next;
        let more = counted(counts, b);
        counts = more;
    }
    if !keeps(Container::Bidx, FRPA, counts.parts) {
        return Err(Refusal::IndexWrong);
    }
    Ok((counts.many, counts.size))
}
