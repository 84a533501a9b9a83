// The index in one box of a file: in `pfil`, in a `pseg`, or none.
ghost use Rattle.std.specs.Prelude.{List, ◌≡◌, ℕ, ◌≤◌, Option};
ghost use Rattle.boxes.specs.Framing.{box_of};
ghost use Rattle.partial.specs.Limits.{file_limit};
ghost use Rattle.partial.specs.Segments.{Segment};
ghost use Rattle.indexing.specs.Ends.{end_of};
ghost use Rattle.indexing.specs.Index.{CountedIn};
ghost use Rattle.fileindex.specs.File.{SourcePut};
ghost use Rattle.fileindex.specs.Parts.{SegmentOf, Part, index_of_parts, Sourcing, Holds, segments_with, SourceIs, EndsAs, InFile, Adds};

use boxes::framing::Framed;
use boxes::kinds::{Container, PFIL, PSEG, PSHD};
use fields::fields::fields_of;
use indexing::index::index_in;
use indexing::marks::Marks;
use partial::position::Position;
use partial::rows::INDEX_ROW;
use refusals::Refusal;
use sources::numbers::{ALL_SOURCES, source_at};
use tallying::find::first_of;

// How many segments there are with a box, in a file.
pub(crate) fn segments_with(b: Framed, segments: u64) -> u64
    ensures { segments ≤ file_limit → result ≡ segments_with (box_of b) segments }
{
    if b.kind == PSEG {
        return segments.saturating_add(1);
    }
    segments
}

// The number of the source of the index in a box of the file, behind so many segments: that of the list in `pfil`, or
// that of the segment.
pub(crate) fn source_of(b: Framed, segments: u64, sources: &[u64; ALL_SOURCES], in_pfil: u64) -> u64
    ensures { (f : List ℕ) (number : List (List ℕ) → ℕ) (ps : List Part)
        → Holds f (record { number = number; sources = sources.now; in_pfil = in_pfil }) segments (box_of b) ps
        → SourceIs number in_pfil result ps }
{
    if b.kind == PSEG {
        return source_at(sources, segments);
    }
    in_pfil
}

// Puts the number of their source into the rows from one number up to another, where the table has them, behind the
// three that say what is served.
pub(crate) fn put_source(table: &mut [u64], from: u64, to: u64, source: u64)
    ensures { SourcePut from to source table.old table.new }
{
    let end = to.min(table.len() as u64 / INDEX_ROW);
    let mark = source.saturating_add(3);
    for i in from..end {
        table[(INDEX_ROW * i + 4) as usize] = mark;
    }
}

// Where the segment of a `pseg` box starts in the source.
fn offset_of(file: &[u8], b: Framed) -> Position
    ensures { (s : Segment) → SegmentOf file.now (box_of b) s → result.0 ≡ s.source_offset }
{
    let Some(header) = first_of(file, b.as_container(Container::Pseg), PSHD) else {
        return Position(0);
    };
    match fields_of(file, header) {
        Ok(fields) => fields.offset,
        Err(_) => Position(0),
    }
}

// What is marked with the boxes of the index in a box of the file, if it has one, whose source ends there, behind those
// before it.
pub(crate) fn index_at(
    file: &[u8],
    b: Framed,
    size: Option<Position>,
    before: Marks,
    table: &mut [u64],
) -> Result<Option<Marks>, Refusal>
    ensures { (x : Sourcing) (k : ℕ) (ends : List (List ℕ) → Option ℕ) (ps : List Part) → Holds file.now x k (box_of b) ps
        → InFile (box_of b) before.count → EndsAs ends (end_of size) ps
        → Adds (index_of_parts file.now ends ps) before table.old table.new result
        × CountedIn b.end.0 before result }
{
    if b.kind == PFIL {
        let body = b.as_container(Container::Pfil);
        return index_in(file, body, size, Position(0), before, table);
    }
    if b.kind == PSEG {
        let body = b.as_container(Container::Pseg);
        return index_in(file, body, size, offset_of(file, b), before, table);
    }
    Ok(None)
}
