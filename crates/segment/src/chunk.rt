// The chunks of a `ploc`, one after another.
ghost use Rattle.std.specs.Prelude.{◌+◌, ◌-◌, ◌^◌, min, ◌≡◌};
ghost use Rattle.fields.specs.Location.{ploc_of};
ghost use Rattle.segment.specs.Chunk.{Steps};

use crate::placed::placed_at;
use crate::tops::TOPS;
use boxes::framing::Framed;
use fields::entry::entry_at;
use fields::location::Location;
use fields::state::State;
use numerals::order::ends_by;
use numerals::place::Place;
use partial::limits::SOURCE_LIMIT;
use partial::position::Position;
use refusals::Refusal;

// A cursor over entries: the place of the next one, where its chunk starts in the source, and the data box that held
// the last chunk.
#[derive(Clone, Copy)]
pub struct Cursor {
    pub at: Place,
    pub start: Position,
    pub last: Framed,
}

// Where a chunk starts in the source, its size, its state, and its place in the file: 0 if it is not present or empty.
#[derive(Clone, Copy)]
pub struct Chunk {
    pub start: Position,
    pub size: u64,
    pub state: State,
    pub place: Place,
}

impl Chunk {
    // The place of a position's byte, as far behind the chunk's place as the position is behind its start.
    // Nothing else makes a place of a position.
    pub fn place_of(self, p: Position) -> Place
        ensures { result.0 ≡ min (self.place.0 + (p.0 - self.start.0)) (2 ^ 64 - 1) }
    {
        let behind = p.0.saturating_sub(self.start.0);
        Place(self.place.0.saturating_add(behind))
    }
}

impl Cursor {
    // The chunk of the next entry of a `ploc` in the `pseg` at a place, by the table of the file's boxes, with the cursor
    // behind it. The chunk starts where the one before it ends.
    pub fn step(
        self,
        s: &[u8],
        tops: &[u32; TOPS],
        mixed: bool,
        pseg: Place,
        l: Location,
    ) -> Result<(Chunk, Cursor), Refusal>
        ensures { Steps s.now tops.now mixed pseg.0 (ploc_of l) self result }
    {
        let start = self.start;
        let e = entry_at(s, l, self.at)?;
        let size = e.size;
        let next = e.next;
        if !ends_by(start.0, size, SOURCE_LIMIT) {
            return Err(Refusal::SourceTooLong);
        }
        let (place, last) = placed_at(s, tops, mixed, self.last, pseg, e)?;
        let chunk = Chunk {
            start,
            size,
            state: e.state,
            place,
        };
        let after = Cursor {
            at: next,
            start: Position(start.0 + size),
            last,
        };
        Ok((chunk, after))
    }
}
