// What becomes of each box of a file whose framing is right: a table that tells which stay, and the number of each that
// is dropped.
ghost use Rattle.std.specs.Prelude.{ℕ, false, List, ◌≡◌};
ghost use Rattle.boxes.specs.Framing.{box_of};
ghost use Rattle.boxes.specs.Kinds.{pseg, is};
ghost use Rattle.partial.specs.Heading.{Heading};
ghost use Rattle.partial.specs.Limits.{source_limit};
ghost use Rattle.partial.specs.Segments.{Segment};
ghost use Rattle.partial.proofs.Reading.SmallLaws.{AllSmall};
ghost use Rattle.partial.specs.Sequences.{some_of};
ghost use Rattle.rescue.specs.Kept.{lies_in, kept_of, fate_of};
ghost use Rattle.rescue.specs.Table.{code_of, code_told};
ghost use Rattle.salvaging.specs.Tables.{FatesHeld, Sound};
ghost use Rattle.gathering.specs.Keeping.{Boxed};
ghost use Rattle.gathering.specs.Numbers.{chunk_by, numbers_of};

use crate::opening::OpenFile;
use boxes::body::Body;
use boxes::framing::Framed;
use boxes::kinds::{Container, FTYP, PDAT, PFIL, PSEG};
use boxes::walk::Walk;
use gathering::keeping::keep_pass;
use gathering::numbers::chunk_by;
use numerals::place::Place;
use partial::position::Position;
use partial::rows::ALL_NUMBERS;
use refusals::Refusal;
use rescue::table::{ALL_FATES, Fate};

// Whether the chunk of a number is good and lies in a box.
fn lies_in(b: Framed, number: u64) -> bool
    ensures { result ≡ lies_in (box_of b) (chunk_by 0 number) }
{
    let c = chunk_by(number, Position(0));
    if !c.state.is_good() {
        return false;
    }
    c.place.0 <= b.at.0 && b.end.0 <= c.place.0.saturating_add(c.size)
}

// Whether some good chunk, of those whose numbers these are, lies in a box.
fn lain_in(b: Framed, kept: &[u64]) -> bool
    ensures { result ≡ some_of (λ n. lies_in (box_of b) (chunk_by 0 n)) kept.now }
{
    for number in kept {
        if lies_in(b, *number) {
            return true;
        }
    }
    false
}

// What becomes of a box behind the first two that is no `pseg`, by the numbers of the chunks that are kept.
fn fate_of(b: Framed, mixed: bool, kept: &[u64]) -> Fate
    ensures { (f : List ℕ) (h : Heading) (before : List Segment) → mixed ≡ h.mixed → is pseg (box_of b) ≡ false
        → AllSmall source_limit (kept_of source_limit f h) → kept.now ≡ numbers_of (kept_of source_limit f h) → code_told result ≡ code_of (fate_of source_limit f h before (box_of b)) }
{
    if b.kind == FTYP {
        return Fate::Dropped(Some(Refusal::FtypWrong));
    }
    if b.kind == PFIL {
        return Fate::Dropped(Some(Refusal::PfilWrong));
    }
    if b.kind == PDAT {
        return Fate::Stays;
    }
    // Any other is dropped though nothing is wrong with it, unless it is what a chunk is.
    if !mixed {
        return Fate::Dropped(None);
    }
    if lain_in(b, kept) {
        Fate::Stays
    } else {
        Fate::Dropped(None)
    }
}

// Tells the fate of each box of a file that was opened, by the numbers of the chunks that are kept, which go into a table.
fn tell_fates(
    file: &[u8],
    o: OpenFile,
    fates: &mut [Fate; ALL_FATES],
    numbers: &mut [u64; ALL_NUMBERS],
)
    ensures { (h : Heading) → Sound file.now h → Boxed file.now o.mixed o.list h → FatesHeld file.now h fates.new }
{
    let gathered = keep_pass(file, o.mixed, o.list, fates, numbers);
    let many = (gathered.chunks as usize).min(ALL_NUMBERS);
    let kept = &numbers[..many];
    let mut walk = Walk::new(Body {
        container: Container::File,
        start: Place(0),
        end: Place(file.len() as u64),
    });
    // The number of the box: a walk is no iterator that counts.
    let mut k = 0;
    while let Some((b, next)) = walk.step(file).unwrap_or(None) {
        walk = next;
        let at = k;
        k += 1;
        if at < 2 {
            fates[at] = Fate::Stays;
        } else if b.kind != PSEG {
            fates[at] = fate_of(b, o.mixed, kept);
        }
    }
}

// Tells the fate of each box of a file that was opened.
pub(crate) fn fates_of(file: &[u8], o: OpenFile, fates: &mut [Fate; ALL_FATES])
    ensures { (h : Heading) → Sound file.now h → Boxed file.now o.mixed o.list h → FatesHeld file.now h fates.new }
{
    let mut numbers = [0; ALL_NUMBERS];
    tell_fates(file, o, fates, &mut numbers);
}
