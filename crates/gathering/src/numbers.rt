// A chunk as one number, of which it is read back where its start is known. Not a struct, since a table of as many as a
// file may have lies in the fixed memory of a small receiver.
ghost use Rattle.std.specs.Prelude.{◌%◌, ◌≡◌};
ghost use Rattle.fields.specs.State.{state_no};
ghost use Rattle.segment.specs.Chunk.{chunk_of};
ghost use Rattle.gathering.specs.Numbers.{number_of, chunk_by};

use fields::state::State;
use numerals::place::Place;
use partial::limits::FILE_LIMIT;
use partial::position::Position;
use segment::chunk::Chunk;

// Above the state, of which there are four.
const STATES: u64 = 4;
// Above the place of a present chunk too.
const PLACED: u64 = 4_294_967_296;
// The sizes that have room above the state.
const SIZES: u64 = 4_611_686_018_427_387_904;

// The number of a chunk.
pub(crate) fn number_of(c: Chunk) -> u64
    ensures { result ≡ number_of (chunk_of c) }
{
    let state = c.state.number();
    let place = c.place;
    if c.state.is_present() {
        return state + STATES * (place.0 % FILE_LIMIT) + PLACED * (c.size % PLACED);
    }
    state + STATES * (c.size % SIZES)
}

// The state in a number.
fn state_of(n: u64) -> State
    ensures { state_no result ≡ n % 4 }
{
    match n % STATES {
        0 => State::Lost,
        1 => State::Damaged,
        2 => State::Good,
        _ => State::Elsewhere,
    }
}

// The chunk of a number that starts there.
pub fn chunk_by(n: u64, start: Position) -> Chunk
    ensures { chunk_of result ≡ chunk_by start.0 n }
{
    let state = state_of(n);
    if state.is_present() {
        return Chunk {
            start,
            size: n / PLACED,
            state,
            place: Place(n / STATES % FILE_LIMIT),
        };
    }
    Chunk {
        start,
        size: n / STATES,
        state,
        place: Place(0),
    }
}
