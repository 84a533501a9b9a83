// One entry of a `ploc`.
ghost use Rattle.std.specs.Prelude.{◌<◌, ◌≡◌};
ghost use Rattle.partial.specs.Entries.{entry};
ghost use Rattle.boxes.specs.Answer.{told_as};
ghost use Rattle.fields.specs.Entry.{offset_bytes, entry_rest, entry_of};
ghost use Rattle.fields.specs.Location.{ploc_of};
ghost use Rattle.fields.specs.State.{state_no};

use crate::location::Location;
use crate::state::{State, state_of};
use numerals::numbers::{Offset, signed, unsigned, within};
use numerals::order::ends_by;
use numerals::place::Place;
use refusals::Refusal;

// The state and the size of its chunk, the offset of the chunk's place, and the place after the entry.
#[derive(Clone, Copy)]
pub struct Entry {
    pub state: State,
    pub size: u64,
    pub offset: Offset,
    pub next: Place,
}

// The bytes of an offset in an entry of that state: a chunk that is not present has none.
fn offset_size(l: Location, state: State) -> usize
    ensures { result ≡ offset_bytes (ploc_of l) (state_no state) }
{
    if state.is_present() {
        within(l.offset_size)
    } else {
        0
    }
}

// What follows the flags of an entry of that state.
fn rest_of(s: &[u8], l: Location, at: Place, state: State) -> Result<Entry, Refusal>
    requires { at.0 < l.end.0 }
    ensures { told_as entry_of result ≡ entry_rest s.now (ploc_of l) at.0 (state_no state) }
{
    let end = l.end;
    let size_at = Place(at.0 + 1);
    let length_size = within(l.length_size);
    let offset_size = offset_size(l, state);
    if !ends_by(size_at.0, (length_size + offset_size) as u64, end.0) {
        return Err(Refusal::PlocWrong);
    }
    let offset_at = Place(size_at.0 + length_size as u64);
    Ok(Entry {
        state,
        size: unsigned(s, size_at, length_size),
        offset: signed(s, offset_at, offset_size),
        next: Place(offset_at.0 + offset_size as u64),
    })
}

// The entry at a place of a `ploc`.
pub fn entry_at(s: &[u8], l: Location, at: Place) -> Result<Entry, Refusal>
    ensures { told_as entry_of result ≡ entry s.now (ploc_of l) at.0 }
{
    let end = l.end;
    if end.0 <= at.0 {
        return Err(Refusal::PlocWrong);
    }
    let state = state_of(unsigned(s, at, 1) as u8)?;
    rest_of(s, l, at, state)
}
