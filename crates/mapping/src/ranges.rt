// The lines of the ranges, ascending, and their totals.
ghost use Rattle.std.specs.Prelude.{◌+◌, ◌*◌, ◌<◌, ◌≤◌, ◌^◌, length};
ghost use Rattle.filling.specs.Rows.{Puts};
ghost use Rattle.partial.specs.Map.{range_lines};
ghost use Rattle.mapping.specs.Outline.{Drawn, word_of, ranges_in};
ghost use Rattle.mapping.specs.Totals.{Counts};

use crate::lines::put_range;
use crate::outline::Outline;
use crate::totals::Totals;
use partial::position::Position;
use sweeping::naming::{Sweeps, named_at};

// Puts a line for each range below the end, by the spans of both kinds, and answers where the lines end and what the
// ranges hold together.
pub(crate) fn put_ranges(buffer: &mut [u8], at: u64, o: Outline<'_>) -> (u64, Totals)
    requires { (at < 2 ^ 60) × Drawn o }
    ensures { Puts buffer.old at (range_lines (word_of o.entry.named) (ranges_in o.entry)) buffer.new result.0
        × (result.0 ≤ at + 50 * o.entry.end.0)
        × (result.0 ≤ at + 50 * length (ranges_in o.entry))
        × Counts (ranges_in o.entry) result.1 }
{
    let mut next = at;
    let mut totals = Totals {
        received: 0,
        held: 0,
        lost: 0,
    };
    let mut sweeps = Sweeps::start();
    let mut p = 0;
    while p < o.end.0 {
        let found = named_at(o.good, o.damaged, sweeps, Position(p), o.end);
        let r = found.range;
        next = put_range(buffer, next, Position(p), r, o.named);
        totals = totals.with(Position(p), r);
        sweeps = found.sweeps;
        p += r.length;
    }
    (next, totals)
}
