// A sweep over ordered spans: it stands in the range of a position, and is moved only where that ends.
ghost use Rattle.std.specs.Prelude.{◌<◌, ◌≡◌, length};
ghost use Rattle.spans.specs.Spans.{Ordered};
ghost use Rattle.sweeping.specs.Sweeps.{at_start, Moves, Ready};

use crate::ranges::{Class, range_at};
use partial::position::Position;
use spans::span::Span;

// The number of the class of the range that it stands in, where that ends, and how many spans are passed there. Any
// number may be given: one that no class has is not that of what is had.
#[derive(Clone, Copy)]
pub struct Sweep {
    pub class: u64,
    pub to: Position,
    pub passed: usize,
}

impl Sweep {
    // A sweep that has not begun.
    pub(crate) fn start() -> Self
        ensures { result ≡ at_start }
    {
        Sweep {
            class: Class::Missing.number(),
            to: Position(0),
            passed: 0,
        }
    }

    // The sweep as it stands in the range of a position below an end: moved there, unless it does so already.
    pub(crate) fn at(self, spans: &[Span], p: Position, end: Position) -> Self
        ensures { Moves p.0 end.0 result × (Ordered spans.now (length spans.now) end.0
            → Ready spans.now end.0 p.0 self → p.0 < end.0
            → Ready spans.now end.0 p.0 result) }
    {
        if p.0 < self.to.0 {
            return self;
        }
        let found = range_at(spans, self.passed, p, end);
        let r = found.range;
        Sweep {
            class: r.class.number(),
            to: Position(p.0 + r.length),
            passed: found.passed,
        }
    }
}
