// All stages: what a file says, before any lent table is filled.
ghost use Rattle.std.specs.Prelude.{ℕ, List, ◌≡◌};
ghost use Rattle.boxes.specs.Answer.{given};
ghost use Rattle.boxes.specs.Kinds.{pseg, right};
ghost use Rattle.boxes.specs.declared.kinds.Container.TheVariants.{File};
ghost use Rattle.partial.specs.Heading.{Heading, heading};
ghost use Rattle.partial.specs.Limits.{source_limit};
ghost use Rattle.partial.specs.Reading.{segments, reading, earlier_segments};
ghost use Rattle.partial.specs.Segments.{Segment};
ghost use Rattle.heading.specs.Facts.{facts_of, facts_by};
ghost use Rattle.gathering.specs.Gathered.{gathered_of};
ghost use Rattle.gathering.specs.Noted.{Noted};
ghost use Rattle.reading.specs.Judged.{gathered_in, judged_in, gathered_answer, judged_answer, earlier_told, reading_told, WhereRead, KeptIn, SizedIn, SourcedIn};

use crate::indexed::index_stages;
use boxes::kinds::{Container, PSEG};
use ends::table::all_agree;
use gathering::gathered::Gathered;
use gathering::pass::pass;
use gathering::tables::SourceTables;
use heading::answers::Head;
use heading::stages::heading_of;
use partial::limits::{LAYER_LIMIT, SEGMENT_LIMIT};
use refusals::Refusal;
use sources::find::source_of;
use tallying::rules::keeps;

// What the heading of a file tells, what is gathered of its segments, and how many rows its index has.
#[derive(Clone, Copy)]
pub struct Judged {
    pub head: Head,
    pub gathered: Gathered,
    pub index: u64,
}

// 12: whether a file of that heading has a segment.
fn has_segment(head: Head) -> bool
    ensures { (f : List ℕ) (h : Heading) → facts_of f h ≡ facts_by head → result ≡ right File pseg h.boxes }
{
    keeps(Container::File, PSEG, head.segments)
}

// Stages 13 to 25 and 40 of a file of that heading; the rows of its segments and the numbers of their chunks go into tables
// that have room for them all, and what their ends say, their sources and where the lists of these stand into the
// caller's own.
fn segments_of(
    file: &[u8],
    head: Head,
    rows: &mut [u64],
    numbers: &mut [u64],
    tables: &mut SourceTables,
) -> Result<Gathered, Refusal>
    ensures { (h : Heading) → heading file.now ≡ given h → facts_of file.now h ≡ facts_by head
        → (gathered_answer result ≡ gathered_in file.now h)
        × KeptIn (segments source_limit file.now h) rows.old rows.new numbers.old numbers.new
        × WhereRead (segments source_limit file.now h) (Noted file.now h tables.new) }
{
    if SEGMENT_LIMIT < head.segments {
        return Err(Refusal::TooManySegments);
    }
    let gathered = pass(file, head.mixed, head.list, true, rows, numbers, tables)?;
    if !all_agree(&tables.sizes, gathered.sources) {
        return Err(Refusal::SizesDiffer);
    }
    if LAYER_LIMIT < gathered.sources {
        return Err(Refusal::TooManySources);
    }
    Ok(gathered)
}

// What a file says of which stages 1 to 25 and 40 are passed: 36 to 39 are those of its index.
fn with_index(
    file: &[u8],
    head: Head,
    gathered: Gathered,
    tables: &SourceTables,
) -> Result<Judged, Refusal>
    ensures { (h : Heading) (ss : List Segment) → heading file.now ≡ given h
        → facts_of file.now h ≡ facts_by head → segments source_limit file.now h ≡ given ss
        → gathered ≡ gathered_of ss → Noted file.now h tables.now ss
        → judged_answer result ≡ judged_in file.now h }
{
    let source = source_of(file, &tables.lists, gathered.sources, head.list);
    let index = index_stages(
        file,
        head.indexed,
        gathered.indexed,
        &tables.sizes,
        &tables.sources,
        source,
    )?;
    Ok(Judged {
        head,
        gathered,
        index,
    })
}

// What a file that append takes says: one that is acceptable, or whose only refusal is 12, whatever its index; and in
// tables what the ends of its segments say, their sources and where the lists of these stand.
pub fn earlier_of(file: &[u8], tables: &mut SourceTables) -> Result<Judged, Refusal>
    ensures { (judged_answer result ≡ earlier_told file.now)
        × SizedIn (earlier_segments source_limit file.now) tables.new.sizes
        × SourcedIn file.now (earlier_segments source_limit file.now) tables.new.sources tables.new.lists }
{
    let mut no_rows = [0; 1];
    let mut no_numbers = [0; 1];
    let head = heading_of(file)?;
    let gathered = segments_of(file, head, &mut no_rows, &mut no_numbers, tables)?;
    if !has_segment(head) {
        return Ok(Judged {
            head,
            gathered,
            index: 0,
        });
    }
    with_index(file, head, gathered, tables)
}

// What an acceptable file says; the rows of its segments and the numbers of its chunks go into tables that have room
// for them all, and what their ends say, their sources and where the lists of these stand into the caller's own. After
// a refusal the tables may hold some.
pub fn judge_into(
    file: &[u8],
    rows: &mut [u64],
    numbers: &mut [u64],
    tables: &mut SourceTables,
) -> Result<Judged, Refusal>
    ensures { (judged_answer result ≡ reading_told file.now)
        × KeptIn (reading source_limit file.now) rows.old rows.new numbers.old numbers.new
        × SizedIn (reading source_limit file.now) tables.new.sizes
        × SourcedIn file.now (reading source_limit file.now) tables.new.sources tables.new.lists }
{
    let head = heading_of(file)?;
    if !has_segment(head) {
        return Err(Refusal::NoSegment);
    }
    let gathered = segments_of(file, head, rows, numbers, tables)?;
    with_index(file, head, gathered, tables)
}

// The same where neither rows nor numbers are wanted.
pub fn judge(file: &[u8], tables: &mut SourceTables) -> Result<Judged, Refusal>
    ensures { (judged_answer result ≡ reading_told file.now)
        × SizedIn (reading source_limit file.now) tables.new.sizes
        × SourcedIn file.now (reading source_limit file.now) tables.new.sources tables.new.lists }
{
    let mut no_rows = [0; 1];
    let mut no_numbers = [0; 1];
    judge_into(file, &mut no_rows, &mut no_numbers, tables)
}
