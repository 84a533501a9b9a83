// What the ranges of a map hold together: the numbers of its last line.
ghost use Rattle.std.specs.Prelude.{◌+◌, ◌<◌, ◌≤◌, ◌^◌};
ghost use Rattle.mapping.specs.Totals.{Bounded, Joins};

use partial::position::Position;
use sweeping::ranges::{Class, Range};

// How many positions are received, held and lost. Where the missing ones are not named, all of them are among the lost.
#[derive(Clone, Copy)]
pub struct Totals {
    pub received: u64,
    pub held: u64,
    pub lost: u64,
}

impl Totals {
    // With one range more, from a position on.
    pub(crate) fn with(self, p: Position, r: Range) -> Self
        requires { Bounded self p.0 × (0 < r.length) × (p.0 + r.length < 2 ^ 64) }
        ensures { Bounded result (p.0 + r.length) × Joins self p.0 r result }
    {
        match r.class {
            Class::Had => Totals {
                received: self.received + r.length,
                ..self
            },
            Class::Held => Totals {
                held: self.held + r.length,
                ..self
            },
            Class::Missing => Totals {
                lost: self.lost + r.length,
                ..self
            },
        }
    }
}
