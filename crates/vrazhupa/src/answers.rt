// What an exported call answers and leaves in the lent numbers, by the answer of the call below it. After a refusal the
// numbers are as they were.
ghost use Rattle.std.specs.Prelude.{ℕ, List, ◌≡◌};
ghost use Rattle.boxes.specs.Answer.{told_as};
ghost use Rattle.heading.specs.Facts.{facts_by};
ghost use Rattle.partial.specs.Answers.{summary_of, reply_of, totals_of};
ghost use Rattle.surls.specs.Parts.{part_of};
ghost use Rattle.surltexts.specs.Calls.{amounts_of};
ghost use Rattle.vrazhupa.specs.Says.{Says, heading_numbers, summary_numbers, reply_numbers, part_numbers, totals_numbers, texts_numbers, one_number};

use heading::answers::Head;
use partial::answers::{Asked, Lists, Tables};
use refusals::Refusal;
use surls::part::Part;
use surltexts::answers::Texts;

// The kinds of answers about a position: in C they are numbers.
const SERVED: u64 = 0;

const MISSING: u64 = 1;

const NOT_BELOW: u64 = 2;

// What an answer tells, in so many numbers.
pub(crate) trait Tells<const N: usize> {
    ghost tells: { Self → List ℕ };

    fn numbers(self) -> [u64; N]
        ensures { result ≡ tells self };
}

// Leaves the numbers of an answer in the lent ones and answers 0, or the number of the refusal.
pub(crate) fn say<T: Tells<N> + Drop, const N: usize>(
    answer: Result<T, Refusal>,
    told: &mut [u64; N],
) -> u64
    ensures { Says T.tells (told_as (λ t. t) answer) told.old told.new result }
{
    match answer {
        Ok(value) => {
            *told = value.numbers();
            0
        }
        Err(e) => e.number(),
    }
}

// Whether the file is mixed, how many boxes and segments it has, and the places and lengths of both texts.
impl Tells<7> for Head {
    ghost tells = { λ h. heading_numbers (facts_by h) };

    #[tactic(auto, unfolding(crate::specs::Says::heading_numbers, crate::specs::Says::part_numbers))]
    fn numbers(self) -> [u64; 7] {
        let url = self.url;
        let mime = self.mime;
        [
            u64::from(self.mixed),
            self.boxes,
            self.segments,
            url.place.0,
            url.size,
            mime.place.0,
            mime.size,
        ]
    }
}

// How many rows each table has, how many sources there are, the described length of one, and 1 where its size is known.
impl Tells<5> for Tables {
    ghost tells = { λ t. summary_numbers (summary_of t) };

    #[tactic(auto, unfolding(crate::specs::Says::summary_numbers))]
    fn numbers(self) -> [u64; 5] {
        let Tables {
            segments,
            chunks,
            sources,
            described,
            closed,
        } = self;
        let known = u64::from(closed);
        [segments, chunks, sources, described.0, known]
    }
}

// The place of a part of the file, and its length.
impl Tells<2> for Part {
    ghost tells = { λ p. part_numbers (part_of p) };

    #[tactic(auto, unfolding(crate::specs::Says::part_numbers))]
    fn numbers(self) -> [u64; 2] {
        [self.place.0, self.size]
    }
}

// Served, missing or not below the described length, and how many positions in a row.
impl Tells<2> for Asked {
    ghost tells = { λ a. reply_numbers (reply_of a) };

    #[tactic(auto, unfolding(crate::specs::Says::reply_numbers))]
    fn numbers(self) -> [u64; 2] {
        match self {
            Asked::Served(n) => [SERVED, n],
            Asked::Missing(n) => [MISSING, n],
            Asked::NotBelow => [NOT_BELOW, 0],
        }
    }
}

// How many ranges each list has, and the totals.
impl Tells<4> for Lists {
    ghost tells = { λ t. totals_numbers (totals_of t) };

    #[tactic(auto, unfolding(crate::specs::Says::totals_numbers))]
    fn numbers(self) -> [u64; 4] {
        let Lists {
            had,
            missing,
            received_total,
            missing_total,
        } = self;
        [had, missing, received_total, missing_total]
    }
}

// How many bytes the texts have, and how many lengths there are.
impl Tells<2> for Texts {
    ghost tells = { λ t. texts_numbers (amounts_of t) };

    #[tactic(auto, unfolding(crate::specs::Says::texts_numbers))]
    fn numbers(self) -> [u64; 2] {
        let Texts { bytes, lengths } = self;
        [bytes, lengths]
    }
}

// How many rows were filled, or the length of what was written.
impl Tells<1> for u64 {
    ghost tells = { one_number };

    #[tactic(auto, unfolding(crate::specs::Says::one_number))]
    fn numbers(self) -> [u64; 1] {
        [self]
    }
}
