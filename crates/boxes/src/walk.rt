// The walk over the boxes of one container, box by box.
ghost use Rattle.std.specs.Prelude.{◌≡◌};
ghost use Rattle.boxes.specs.Walk.{walk_over, stepped, step_answer};

use crate::body::Body;
use crate::framing::{Framed, header_at};
use crate::kinds::Container;
use crate::limits::BOX_LIMIT;
use numerals::place::Place;
use refusals::Refusal;

// Which container is walked, where its next box stands, where it ends, and how many more boxes it may hold.
#[derive(Clone, Copy)]
pub struct Walk {
    pub container: Container,
    pub at: Place,
    pub end: Place,
    pub left: u64,
}

impl Walk {
    // The walk over a container.
    pub fn new(body: Body) -> Self
        ensures { result ≡ walk_over body.container body.start body.end }
    {
        Self {
            container: body.container,
            at: body.start,
            end: body.end,
            left: BOX_LIMIT,
        }
    }

    // The next box of the container with the walk after it, none at its end, or a fault.
    pub fn step(self, s: &[u8]) -> Result<Option<(Framed, Walk)>, Refusal>
        ensures { step_answer result ≡ stepped s.now self }
    {
        let container = self.container;
        let at = self.at;
        let end = self.end;
        if end.0 <= at.0 {
            return Ok(None);
        }
        if self.left == 0 {
            return Err(Refusal::TooManyBoxes);
        }
        let b = header_at(s, container, at, end)?;
        let next = b.end;
        let after = Walk {
            container,
            at: next,
            end,
            left: self.left - 1,
        };
        Ok(Some((b, after)))
    }
}
