// Maximal ranges by name: had by the spans of the good chunks, else held by those of the damaged ones, else lost, by a
// sweep over each that never goes back.
ghost use Rattle.std.specs.Prelude.{◌<◌, ◌≡◌, length};
ghost use Rattle.partial.specs.Naming.{held};
ghost use Rattle.sweeping.specs.Naming.{both_at_start, BothReady, Names};
ghost use Rattle.sweeping.specs.Ranges.{GoesOn};
ghost use Rattle.spans.specs.Spans.{Ordered};

use crate::ranges::{Class, Range};
use crate::sweep::Sweep;
use partial::position::Position;
use spans::span::Span;

// The sweep over the spans of the good chunks, and that over those of the damaged ones.
#[derive(Clone, Copy)]
pub struct Sweeps {
    pub good: Sweep,
    pub damaged: Sweep,
}

impl Sweeps {
    // Sweeps that have not begun.
    pub fn start() -> Self
        ensures { result ≡ both_at_start }
    {
        Sweeps {
            good: Sweep::start(),
            damaged: Sweep::start(),
        }
    }
}

// A range, and the sweeps where it ends.
#[derive(Clone, Copy)]
pub struct Named {
    pub range: Range,
    pub sweeps: Sweeps,
}

// The range of a position below an end, by the ordered spans of both kinds. The damaged ones are not looked at while
// the position is had.
pub fn named_at(
    good: &[Span],
    damaged: &[Span],
    sweeps: Sweeps,
    p: Position,
    end: Position,
) -> Named
    ensures { GoesOn held p.0 end.0 result.range
        × (Ordered good.now (length good.now) end.0
        → Ordered damaged.now (length damaged.now) end.0
        → BothReady good.now damaged.now end.0 p.0 sweeps → p.0 < end.0
        → Names good.now damaged.now p.0 end.0 result) }
{
    let had = sweeps.good.at(good, p, end);
    if had.class == Class::Had.number() {
        return Named {
            range: Range {
                class: Class::Had,
                length: had.to.0 - p.0,
            },
            sweeps: Sweeps {
                good: had,
                damaged: sweeps.damaged,
            },
        };
    }
    let held = sweeps.damaged.at(damaged, p, end);
    let class = if held.class == Class::Had.number() {
        Class::Held
    } else {
        Class::Missing
    };
    Named {
        range: Range {
            class,
            length: had.to.0.min(held.to.0) - p.0,
        },
        sweeps: Sweeps {
            good: had,
            damaged: held,
        },
    }
}
