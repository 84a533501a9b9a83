// The lines of what is dropped of a file: its place and its number.
ghost use Rattle.std.specs.Prelude.{◌+◌, ◌*◌, ◌≤◌, ◌≡◌, length};
ghost use Rattle.filling.specs.Rows.{Puts};
ghost use Rattle.partial.specs.BoxList.{each};
ghost use Rattle.partial.specs.Heading.{Heading};
ghost use Rattle.rescue.specs.Kept.{Fated};
ghost use Rattle.rescue.specs.Lines.{dropped_line, dropped_lines};
ghost use Rattle.rescue.specs.Table.{code_told, number_of};
ghost use Rattle.rescue.proofs.TableLaws.{Coded};
ghost use Rattle.salvaging.specs.Fault.{fault_at};
ghost use Rattle.salvaging.specs.Tables.{fates_in, FatesHeld, Sound};

use boxes::body::Body;
use boxes::kinds::Container;
use boxes::walk::Walk;
use numerals::place::Place;
use refusals::Refusal;
use rescue::table::{ALL_FATES, Fate};
use texts::lines::put_fault;

// The number that a dropped box is told by: that of its refusal, 0 where nothing was wrong.
fn number_of(wrong: Option<Refusal>) -> u64
    ensures { result ≡ number_of wrong }
{
    match wrong {
        Some(refusal) => refusal.number(),
        None => 0,
    }
}

// Puts the line of a box that is dropped, by its fate; of one that stays nothing.
fn put_line(buffer: &mut [u8], at: u64, place: Place, fate: Fate) -> u64
    ensures { ((x : Fated) → x.box.at ≡ place.0 → Coded x.fate (code_told fate) → at ≤ 42 * 512
        → Puts buffer.old at (dropped_line x) buffer.new result) × (result ≤ at + 42) }
{
    match fate {
        Fate::Stays => at,
        Fate::Dropped(wrong) => put_fault(buffer, at, place.0, number_of(wrong)),
    }
}

// Puts a line for each dropped box of a file whose framing is right, by the fates.
fn put_dropped(buffer: &mut [u8], file: &[u8], fates: &[Fate; ALL_FATES]) -> u64
    ensures { ((h : Heading) → Sound file.now h → FatesHeld file.now h fates.now
        → Puts buffer.old 0 (each dropped_line (fates_in file.now h)) buffer.new result) × (result ≤ 42 * 512) }
{
    let mut walk = Walk::new(Body {
        container: Container::File,
        start: Place(0),
        end: Place(file.len() as u64),
    });
    let mut at = 0;
    // The number of the box: a walk is no iterator that counts.
    let mut k = 0;
    while let Some((b, next)) = walk.step(file).unwrap_or(None) {
        at = put_line(buffer, at, b.at, fates[k]);
        walk = next;
        k += 1;
    }
    at
}

// Puts these lines and that of the framing error that stands behind the file's boxes, if there is one.
pub(crate) fn put_lines(
    buffer: &mut [u8],
    file: &[u8],
    fates: &[Fate; ALL_FATES],
    fault: Option<Refusal>,
) -> u64
    ensures { (h : Heading) → Sound file.now h → FatesHeld file.now h fates.now
        → Puts buffer.old 0 (dropped_lines (fates_in file.now h) (fault_at (length file.now) fault)) buffer.new result }
{
    let next = put_dropped(buffer, file, fates);
    match fault {
        Some(refusal) => put_fault(buffer, next, file.len() as u64, refusal.number()),
        None => next,
    }
}
