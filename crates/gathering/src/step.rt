// The step of reading: one segment beside those before it, refusals 14 to 24 and 41.
ghost use Rattle.std.specs.Prelude.{◌+◌, ◌≤◌, List, ◌≡◌, length};
ghost use Rattle.boxes.specs.Framing.{box_limit, box_of};
ghost use Rattle.partial.specs.Heading.{Heading};
ghost use Rattle.partial.specs.Limits.{chunk_limit};
ghost use Rattle.partial.specs.Segments.{Segment, chunks_of};
ghost use Rattle.segment.specs.Placed.{Ready};
ghost use Rattle.gathering.specs.Basis.{Based};
ghost use Rattle.gathering.specs.Step.{chosen_list, Entered, Fitting, PsegTold, Beside, Counted, Segmented};

use crate::basis::Basis;
use crate::chunks::chunks_of;
use crate::gathered::{Gathered, add_end};
use crate::parts::{Parts, parts_of};
use crate::rows::put_segment;
use crate::tables::SourceTables;
use boxes::body::Body;
use boxes::framing::Framed;
use boxes::kinds::Container;
use numerals::place::Place;
use partial::limits::{CHUNK_LIMIT, SOURCE_LIMIT};
use partial::position::Position;
use refusals::Refusal;
use segment::chunk::Cursor;
use segment::tops::TOPS;
use sources::join::join;

// Puts the row, the source and the end of a segment that was read into the tables: its chunks end at that position, and
// its list of URLs stands in that container. What is gathered with it.
pub(crate) fn put_read(
    file: &[u8],
    list: Body,
    before: Gathered,
    place: Place,
    p: Parts,
    end: Position,
    segments: &mut [u64],
    tables: &mut SourceTables,
) -> Gathered
    requires { (before.segments ≤ box_limit) × (before.chunks + p.location.count ≤ chunk_limit) × (p.header.body.0 ≤ p.header.end.0) }
    ensures { Entered file.now list before place.0 p end.0 segments.old segments.new tables.old tables.new result }
{
    let fields = p.fields;
    let header = p.header;
    let count = p.location.count;
    let sources = &mut tables.sources;
    let lists = &mut tables.lists;
    let source = join(file, list, before.segments, before.sources, sources, lists);
    put_segment(
        segments,
        before.segments,
        place,
        fields,
        count,
        header,
        source,
    );
    add_end(&mut tables.sizes, source, fields.flags, count, end);
    before.with(count, source, p.indexed)
}

// Where the list of URLs of a segment stands: in its own box, or in `pfil` where it has none.
pub(crate) fn list_of(b: Framed, own: bool, in_pfil: Body) -> Body
    ensures { result ≡ chosen_list b own in_pfil }
{
    if own {
        b.as_container(Container::Pseg)
    } else {
        in_pfil
    }
}

// What the box of a segment holds, judged beside what was gathered before it, by the table of the file's boxes, and the
// cursor behind its last entry. Its chunks are put behind those before.
pub(crate) fn pseg_of(
    file: &[u8],
    tops: &[u32; TOPS],
    basis: Basis,
    b: Framed,
    before: Gathered,
    last: Framed,
    numbered: bool,
    chunks: &mut [u64],
) -> Result<(Parts, Cursor), Refusal>
    requires { (before.chunks ≤ chunk_limit) × (b.end.0 ≤ length file.now) }
    ensures { Fitting before result × ((h : Heading) (ss : List Segment) → Based file.now h basis
        → Ready file.now tops.now basis.mixed last h → before.chunks ≡ length (chunks_of ss)
        → PsegTold file.now h ss b basis.listed before last numbered chunks.old chunks.new result) }
{
    let place = b.at;
    let p = parts_of(file, b, basis.listed)?;
    let l = p.location;
    let start = p.fields.offset;
    if CHUNK_LIMIT - before.chunks < l.count {
        return Err(Refusal::TooManyChunks);
    }
    if SOURCE_LIMIT < start.0 {
        return Err(Refusal::SourceTooLong);
    }
    let first = Cursor {
        at: l.first,
        start,
        last,
    };
    let cursor = chunks_of(
        file,
        tops,
        basis.mixed,
        place,
        l,
        first,
        before,
        numbered,
        chunks,
    )?;
    Ok((p, cursor))
}

// The segment of a `pseg` box, beside what was gathered before it, by the table of the file's boxes: what is gathered
// with it, and the data box that held the last chunk.
pub(crate) fn segment_of(
    file: &[u8],
    tops: &[u32; TOPS],
    basis: Basis,
    b: Framed,
    before: Gathered,
    last: Framed,
    numbered: bool,
    segments: &mut [u64],
    chunks: &mut [u64],
    tables: &mut SourceTables,
) -> Result<(Gathered, Framed), Refusal>
    requires { (before.segments ≤ box_limit) × (before.chunks ≤ chunk_limit) × (b.end.0 ≤ length file.now) }
    ensures { Counted before result × ((h : Heading) (ss : List Segment) → Based file.now h basis
        → Ready file.now tops.now basis.mixed last h → Beside file.now h before tables.old ss
        → Segmented file.now h ss (box_of b) numbered segments.old segments.new chunks.old chunks.new tables.new result) }
{
    let (p, cursor) = pseg_of(file, tops, basis, b, before, last, numbered, chunks)?;
    let list = list_of(b, p.listed, basis.list);
    let gathered = put_read(file, list, before, b.at, p, cursor.start, segments, tables);
    Ok((gathered, cursor.last))
}
