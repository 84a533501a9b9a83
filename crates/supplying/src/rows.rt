// The chunks of a table that reading filled, row by row, and which of them are a source's.
ghost use Rattle.std.specs.Prelude.{true, ◌+◌, ◌-◌, ◌^◌, min, ◌≡◌, ◌<◌, ◌/◌, SomeIff, eqb, length, option_map};
ghost use Rattle.partial.specs.Segments.{good};
ghost use Rattle.partial.specs.Tables.{chunk_row_length};
ghost use Rattle.segment.specs.Chunk.{chunk_of};
ghost use Rattle.supplying.specs.Rows.{told_of, chunk_in, row_of};

use fields::state::State;
use numerals::place::Place;
use partial::position::Position;
use partial::rows::CHUNK_ROW;
use segment::chunk::Chunk;
use sources::numbers::{ALL_SOURCES, source_at};

// A chunk as its row tells it. Its state is the number in the row: a lent table may hold one that no state has.
#[derive(Clone, Copy)]
pub struct Told {
    pub start: Position,
    pub size: u64,
    pub state: u64,
    pub place: Place,
}

impl Told {
    // Whether it is good.
    pub(crate) fn is_good(self) -> bool
        ensures { result ≡ eqb self.state good }
    {
        self.state == State::Good.number()
    }

    // The place of a position's byte, as of a chunk there in any state.
    pub fn place_of(self, p: Position) -> Place
        ensures { result.0 ≡ min (self.place.0 + (p.0 - self.start.0)) (2 ^ 64 - 1) }
    {
        let chunk = Chunk {
            start: self.start,
            size: self.size,
            state: State::Lost,
            place: self.place,
        };
        chunk.place_of(p)
    }

    // The chunk, which is good.
    pub(crate) fn good(self) -> Chunk
        requires { self.state ≡ good }
        ensures { chunk_of result ≡ told_of self }
    {
        Chunk {
            start: self.start,
            size: self.size,
            state: State::Good,
            place: self.place,
        }
    }
}

// The chunk of the row of that number, counted from 0, if the row is there.
pub fn chunk_at(table: &[u64], n: u64) -> Option<Told>
    ensures { SomeIff (option_map told_of result) (n < length table.now / chunk_row_length) (chunk_in table.now n) }
{
    if table.len() as u64 / CHUNK_ROW <= n {
        return None;
    }
    let at = (CHUNK_ROW * n) as usize;
    Some(Told {
        start: Position(table[at + 2]),
        size: table[at + 3],
        state: table[at + 4],
        place: Place(table[at + 5]),
    })
}

// The chunk of the row of that number, if the row is there and the chunk is of a source, by the sources of the segments.
pub fn of_source(sources: &[u64; ALL_SOURCES], source: u64, table: &[u64], n: u64) -> Option<Told>
    ensures { SomeIff (option_map told_of result) (row_of sources.now source table.now n ≡ true) (chunk_in table.now n) }
{
    let told = chunk_at(table, n)?;
    let segment = table[(CHUNK_ROW * n) as usize];
    if source_at(sources, segment) == source {
        Some(told)
    } else {
        None
    }
}
