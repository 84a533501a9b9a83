// The chunk list of an addition, counted in one pass.
ghost use Rattle.std.specs.Prelude.{◌<◌, ◌≤◌, ◌^◌, not, ◌&&◌, List, [], ◌∷◌, ◌++◌, ◌≡◌, eqb};
ghost use Rattle.boxes.specs.Answer.{told_as};
ghost use Rattle.additions.specs.Addition.{Item, items};
ghost use Rattle.adding.specs.Counts.{counts_of, counted};

use fields::state::State;
use refusals::Refusal;

// Whether no size is 0 and every state is one; how many items there are, and how many of them are present; the largest
// size; the bytes of those that are present, and of all. A sum past 64 bits counts as the largest number that they
// hold.
#[derive(Clone, Copy)]
pub struct Counts {
    pub right: bool,
    pub items: u64,
    pub present: u64,
    pub largest: u64,
    pub bytes: u64,
    pub sum: u64,
}

// Whether items are right with one more of that size, whose state is one.
fn right_with(right: bool, size: u64) -> bool
    ensures { result ≡ (right && not (eqb size 0)) }
{
    right && size != 0
}

impl Counts {
    // Of no item.
    fn none() -> Self
        ensures { result ≡ counts_of [] }
    {
        Counts {
            right: true,
            items: 0,
            present: 0,
            largest: 0,
            bytes: 0,
            sum: 0,
        }
    }

    // With one item more.
    fn with(self, size: u64, number: u64) -> Self
        requires { (self.items < 2 ^ 63) × (self.present ≤ self.items) }
        ensures { (is : List Item) → self ≡ counts_of is → result ≡ counts_of (is ++ (record { size = size; state = number } ∷ [])) }
    {
        let counts = Counts {
            items: self.items + 1,
            largest: self.largest.max(size),
            sum: self.sum.saturating_add(size),
            ..self
        };
        let Ok(state) = State::try_from(number) else {
            return Counts {
                right: false,
                ..counts
            };
        };
        let counts = Counts {
            right: right_with(self.right, size),
            ..counts
        };
        if !state.is_present() {
            return counts;
        }
        Counts {
            present: self.present + 1,
            bytes: self.bytes.saturating_add(size),
            ..counts
        }
    }
}

// The items of a chunk list, which are its pairs.
pub fn counts_of(list: &[u64]) -> Counts
    ensures { result ≡ counts_of (items list.now) }
{
    let mut counts = Counts::none();
    for i in 0..list.len() / 2 {
        counts = counts.with(list[2 * i], list[2 * i + 1]);
    }
    counts
}

// The same; 31 for a size 0, or a number that is of no state.
pub fn counted(list: &[u64]) -> Result<Counts, Refusal>
    ensures { told_as (λ c. c) result ≡ counted (items list.now) }
{
    let counts = counts_of(list);
    if !counts.right {
        return Err(Refusal::ChunkListWrong);
    }
    Ok(counts)
}
