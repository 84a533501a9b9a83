// The boxes of a container counted in one walk, by the rows of the table of kinds.
ghost use Rattle.std.specs.Prelude.{ℕ, ◌≤◌, List, [], ◌∷◌, ◌++◌, ◌≡◌, length, get_or};
ghost use Rattle.boxes.specs.Answer.{told_as};
ghost use Rattle.boxes.specs.Bodies.{boxes_of};
ghost use Rattle.boxes.specs.Framing.{Box};
ghost use Rattle.boxes.specs.Kinds.{rules};
ghost use Rattle.tallying.specs.Rules.{counts_of, CountedBy, tallied};

use crate::rules::row_at;
use crate::tally::Tally;
use boxes::body::Body;
use boxes::kinds::{Kind, RULE_COUNT};
use boxes::walk::Walk;
use refusals::Refusal;

// Where the table is cut in two: a loop over all its rows is too long for the compiler to write out.
const HALF: usize = 7;

// The counts after one more box, of that kind, by the rows of the table from one up to another.
fn counted_by(counts: [u64; RULE_COUNT], kind: Kind, from: usize, to: usize) -> [u64; RULE_COUNT]
    requires { (from ≤ to) × (to ≤ length rules) × ((k : ℕ) → from ≤ k → get_or counts k 0 ≤ 512) }
    ensures { CountedBy rules kind.code from to counts result }
{
    let mut after = counts;
    for i in from..to {
        let row = row_at(i);
        if kind == row.kind {
            after[i] += 1;
        }
    }
    after
}

// The counts after one more box, of that kind.
fn counted(counts: [u64; RULE_COUNT], kind: Kind) -> [u64; RULE_COUNT]
    requires { (k : ℕ) → get_or counts k 0 ≤ 512 }
    ensures { (bs : List Box) (b : Box) → counts ≡ counts_of bs → b.kind ≡ kind.code → result ≡ counts_of (bs ++ (b ∷ [])) }
{
    let first = counted_by(counts, kind, 0, HALF);
    counted_by(first, kind, HALF, RULE_COUNT)
}

// How many boxes of each kind a container holds, or its first fault.
pub fn tally(s: &[u8], body: Body) -> Result<Tally, Refusal>
    ensures { told_as (λ t. t) result ≡ tallied (boxes_of s.now body) }
{
    let mut walk = Walk::new(body);
    let mut boxes = 0;
    let mut counts = [0; RULE_COUNT];
    while let Some((b, next)) = walk.step(s)? {
        walk = next;
        boxes += 1;
        let more = counted(counts, b.kind);
        counts = more;
    }
    Ok(Tally { boxes, counts })
}
