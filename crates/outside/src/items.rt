// The data of one item of a chunk list: how much it is, where it ends in the data of all, and whether it goes outside
// `pdat`. An item has the number of its state as the caller lent it; a number above 3 is of no state, and has no data.
ghost use Rattle.std.specs.Prelude.{ℕ, ◌+◌, min, [], ◌∷◌, ◌≡◌};
ghost use Rattle.additions.specs.Addition.{data_size, goes_out};

use fields::state::{State, present};

// How many bytes of data an item has.
pub fn data_of(size: u64, state: u64) -> u64
    ensures { result ≡ data_size (record { size = size; state = state } ∷ []) }
{
    if present(state) { size } else { 0 }
}

// Where the data of an item ends that begins at a place, and no farther than all the data.
pub fn end_of(at: usize, size: u64, state: u64, all: usize) -> usize
    ensures { result ≡ min (at + data_size (record { size = size; state = state } ∷ [])) all }
{
    let end = (at as u64).saturating_add(data_of(size, state));
    end.min(all as u64) as usize
}

// Whether an item's data goes outside: it is good, and the good ones go there.
pub fn goes_out(outside: bool, state: u64) -> bool
    ensures { (size : ℕ) → result ≡ goes_out outside (record { size = size; state = state }) }
{
    outside && state == State::Good.number()
}
