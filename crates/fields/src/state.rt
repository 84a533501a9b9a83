// The states of chunks, and the flag byte that tells them.
ghost use Rattle.std.specs.Prelude.{◌≡◌, ◌≤◌, ◌<◌, ◌↔◌, eqb, IfOk, IsOk, IsErrOf};
ghost use Rattle.boxes.specs.Answer.{told_as};
ghost use Rattle.fields.specs.State.{state_no};
ghost use Rattle.partial.specs.Entries.{state_of};
ghost use Rattle.partial.specs.Segments.{good, present};
ghost use Rattle.refusals.specs.declared.Refusal.TheVariants.{ChunkListWrong};

use refusals::Refusal;

// What is known of a chunk, each state with its number.
#[derive(Clone, Copy, PartialEq, Eq)]
pub enum State {
    // Corrupted, and not present.
    Lost = 0,
    // Corrupted, but present.
    Damaged = 1,
    // Not corrupted, and present.
    Good = 2,
    // Neither: its data is held elsewhere. No state is above it.
    Elsewhere = 3,
}

impl State {
    // Its number.
    pub fn number(self) -> u64
        ensures { result ≡ state_no self }
    {
        self as u64
    }

    // Whether a chunk of that state is present.
    pub fn is_present(self) -> bool
        ensures { result ≡ present (state_no self) }
    {
        match self {
            State::Good | State::Damaged => true,
            State::Lost | State::Elsewhere => false,
        }
    }

    // Whether a chunk of that state is present, and not corrupted.
    pub fn is_good(self) -> bool
        ensures { result ≡ eqb (state_no self) good }
    {
        self == State::Good
    }
}

impl TryFrom<u64> for State {
    type Error = Refusal;

    ghost try_from_gives = { λ n r. IfOk r (λ state. state_no state ≡ n) × (IsOk r ↔ n ≤ 3) × (IsErrOf r ChunkListWrong ↔ 3 < n) };

    // The state of a number in a chunk list.
    fn try_from(number: u64) -> Result<Self, Refusal> {
        match number {
            0 => Ok(State::Lost),
            1 => Ok(State::Damaged),
            2 => Ok(State::Good),
            3 => Ok(State::Elsewhere),
            _ => Err(Refusal::ChunkListWrong),
        }
    }
}

// Whether a number is that of a state in which a chunk is present.
pub fn present(state: u64) -> bool
    ensures { result ≡ present state }
{
    match State::try_from(state) {
        Ok(known) => known.is_present(),
        Err(_) => false,
    }
}

// The state of a chunk by its bit corrupted, its bit present and the six reserved bits.
pub fn state_of(flags: u8) -> Result<State, Refusal>
    ensures { told_as state_no result ≡ state_of flags }
{
    match flags {
        0x40 => Ok(State::Good),
        0xc0 => Ok(State::Damaged),
        0x80 => Ok(State::Lost),
        0x00 => Ok(State::Elsewhere),
        0x01..=0x3f | 0x41..=0x7f | 0x81..=0xbf | 0xc1..=0xff => Err(Refusal::ReservedBit),
    }
}
