// What one walk over a container tells of it.
ghost use Rattle.std.specs.Prelude.{◌≡◌};
ghost use Rattle.tallying.specs.Rules.{tally_for};

use crate::rules::row_at;
use boxes::kinds::{Kind, RULE_COUNT};

// How many boxes there are, and how many of the kind of each row of the table.
#[derive(Clone, Copy)]
pub struct Tally {
    pub boxes: u64,
    pub counts: [u64; RULE_COUNT],
}

impl Tally {
    // The count of a kind, 0 for one that the table has not.
    pub fn of(self, kind: Kind) -> u64
        ensures { result ≡ tally_for kind self.counts }
    {
        let counts = self.counts;
        for i in 0..RULE_COUNT {
            let row = row_at(i);
            if row.kind == kind {
                return counts[i];
            }
        }
        0
    }
}
