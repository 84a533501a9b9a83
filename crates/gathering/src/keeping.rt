// Salvage's pass over the segments of a file: each is judged beside those kept before it, and left out where it would
// refuse.
ghost use Rattle.std.specs.Prelude.{◌≤◌, List, ◌≡◌, length};
ghost use Rattle.boxes.specs.Framing.{box_limit, box_of};
ghost use Rattle.partial.specs.Heading.{Heading};
ghost use Rattle.partial.specs.Limits.{chunk_limit};
ghost use Rattle.partial.specs.Segments.{Segment};
ghost use Rattle.segment.specs.Placed.{Ready};
ghost use Rattle.gathering.specs.Basis.{Based};
ghost use Rattle.gathering.specs.Keeping.{LateTold, SoFar, Tried, Boxed, Keeps};
ghost use Rattle.gathering.specs.Step.{Counted};

use crate::basis::Basis;
use crate::gathered::Gathered;
use crate::step::{list_of, pseg_of, put_read};
use crate::tables::SourceTables;
use boxes::body::Body;
use boxes::framing::Framed;
use boxes::kinds::{Container, PSEG};
use boxes::walk::Walk;
use ends::sizes::gives_size;
use ends::table::{ALL_SIZES, sizes_at};
use numerals::place::Place;
use partial::limits::{LAYER_LIMIT, SEGMENT_LIMIT};
use partial::position::Position;
use partial::rows::ALL_NUMBERS;
use refusals::Refusal;
use rescue::table::{ALL_FATES, Fate};
use segment::data::NO_BOX;
use segment::tops::{NO_TOP, TOPS, tops_of};
use sources::find::source_of;

// 25 and 40 of segments that pass both, with one more of a source, of these flags and so many chunks, that ends there.
fn check_late(
    sizes: &[u64; ALL_SIZES],
    source: u64,
    flags: u64,
    count: u64,
    end: Position,
) -> Result<(), Refusal>
    ensures { LateTold sizes.now source flags count end.0 result }
{
    let before = sizes_at(sizes, source);
    let said = before.with(end, gives_size(flags, count));
    if !said.agree() {
        return Err(Refusal::SizesDiffer);
    }
    if LAYER_LIMIT <= source {
        return Err(Refusal::TooManySources);
    }
    Ok(())
}

// The segment of a `pseg` box, beside those kept before it: it is put to them only where nothing refuses it. What is
// gathered with it, and the data box that held the last chunk.
fn keep_segment(
    file: &[u8],
    tops: &[u32; TOPS],
    basis: Basis,
    b: Framed,
    before: Gathered,
    last: Framed,
    numbers: &mut [u64; ALL_NUMBERS],
    tables: &mut SourceTables,
) -> Result<(Gathered, Framed), Refusal>
    requires { (before.segments ≤ box_limit) × (before.chunks ≤ chunk_limit) × (b.end.0 ≤ length file.now) }
    ensures { Counted before result × ((h : Heading) (kept : List Segment) → Based file.now h basis
        → Ready file.now tops.now basis.mixed last h
        → SoFar file.now h before numbers.old tables.old kept
        → Tried file.now h kept (box_of b) before numbers.new tables.new result) }
{
    if SEGMENT_LIMIT <= before.segments {
        return Err(Refusal::TooManySegments);
    }
    let (p, cursor) = pseg_of(file, tops, basis, b, before, last, true, numbers)?;
    let end = cursor.start;
    let own = list_of(b, p.listed, basis.list);
    let source = source_of(file, &tables.lists, before.sources, own);
    let flags = p.fields.flags;
    let count = p.location.count;
    check_late(&tables.sizes, source, flags, count, end)?;
    let mut no_rows = [0; 1];
    let gathered = put_read(file, own, before, b.at, p, end, &mut no_rows, tables);
    Ok((gathered, cursor.last))
}

// Judges the segments of a file, which is mixed or not and whose `pfil` has its list of URLs, if any, in that container,
// in their order, each beside those kept before it. The fate of each `pseg` goes into one table at the number of its box,
// the numbers of the chunks that are kept into the other. What is gathered of the segments that are kept.
pub fn keep_pass(
    file: &[u8],
    mixed: bool,
    list: Body,
    fates: &mut [Fate; ALL_FATES],
    numbers: &mut [u64; ALL_NUMBERS],
) -> Gathered
    ensures { (h : Heading) → Boxed file.now mixed list h
        → Keeps file.now h fates.new numbers.new result }
{
    // Those of other boxes are left at that.
    *fates = [Fate::Stays; ALL_FATES];
    let basis = Basis::new(file, mixed, list);
    let mut tops = [NO_TOP; TOPS];
    tops_of(file, &mut tops);
    let mut tables = SourceTables::new();
    let mut walk = Walk::new(Body {
        container: Container::File,
        start: Place(0),
        end: Place(file.len() as u64),
    });
    let mut gathered = Gathered::none();
    // No box held a chunk before the first.
    let mut last = NO_BOX;
    for at in 0..ALL_FATES {
        let Some((b, next)) = walk.step(file).unwrap_or(None) else {
            return gathered;
        };
        walk = next;
        if b.kind == PSEG {
            match keep_segment(file, &tops, basis, b, gathered, last, numbers, &mut tables) {
                Err(e) => fates[at] = Fate::Dropped(Some(e)),
                Ok((more, held)) => {
                    gathered = more;
                    last = held;
                    fates[at] = Fate::Stays;
                }
            }
        }
    }
    gathered
}
