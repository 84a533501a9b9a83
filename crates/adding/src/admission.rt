// Whether a file takes an addition: 35, and then 1, 6, 13, 41, 22, 23, 25, 40, 36, 37 or 39 if the result would have it.
ghost use Rattle.std.specs.Prelude.{◌≤◌, Bool, true, List, [], ◌∷◌, ◌≡◌, length};
ghost use Rattle.partial.specs.declared.position.Position.{Position};
ghost use Rattle.boxes.specs.Kinds.{fidx, those};
ghost use Rattle.additions.specs.Addition.{Addition, items, outside_right};
ghost use Rattle.additions.specs.Append.{added_boxes, new_urls};
ghost use Rattle.partial.specs.Answers.{number_answer};
ghost use Rattle.partial.specs.Heading.{Heading};
ghost use Rattle.partial.specs.Index.{size_for};
ghost use Rattle.partial.specs.Limits.{source_limit};
ghost use Rattle.partial.specs.Meaning.{gives_size};
ghost use Rattle.partial.specs.Segments.{Segment, end_of as segmentEnd};
ghost use Rattle.partial.specs.Sources.{same_urls, source_beside};
ghost use Rattle.gathering.specs.Gathered.{gathered_of};
ghost use Rattle.indexing.specs.Ends.{end_of};
ghost use Rattle.adding.specs.Admission.{Tells, Known, indexed_beside, admitted_beside, admitted_answer, Beside, Goes, asked_saying, AskedBy, admitted_length};
ghost use Rattle.outside.specs.Chunks.{outside_of};
ghost use Rattle.adding.specs.Counts.{capped, saying, Sorted};

use crate::counts::Counts;
use crate::layout::Layout;
use crate::texts::Texts;
use additions::header::SegmentHeader;
use boxes::limits::BOX_LIMIT;
use ends::sizes::{Sizes, gives_size};
use ends::table::{ALL_SIZES, ONE_SOURCE, put_sizes};
use gathering::gathered::Gathered;
use numerals::order::ends_by;
use outside::chunks::Outside;
use partial::limits::{CHUNK_LIMIT, FILE_LIMIT, LAYER_LIMIT, SEGMENT_LIMIT, SOURCE_LIMIT};
use partial::position::Position;
use reading::indexed::index_stages;
use reading::judging::Judged;
use refusals::Refusal;
use sources::numbers::ALL_SOURCES;

// The boxes of a `pseg` without texts: its `pshd` and its `ploc`.
const PLAIN_BOXES: u64 = 2;

// Whether the chunks may go outside: there is none, or the file is mixed and each is whole allowed boxes.
pub fn outside_right(mixed: bool, outside: Outside) -> bool
    ensures { (h : Heading) (a : Addition) → mixed ≡ h.mixed → outside ≡ outside_of a.outside (items a.list) a.bytes → result ≡ outside_right h a }
{
    if outside.chunks == 0 {
        return true;
    }
    mixed && outside.right
}

// How many boxes append adds to the file: the `pseg`, those outside, and the `pdat` if any chunk goes there.
fn added_boxes(counts: Counts, outside: Outside) -> u64
    ensures { (right : Bool) (a : Addition) → Sorted a (saying right counts) outside → outside.right ≡ true → result ≡ capped (added_boxes a) }
{
    if counts.present == outside.chunks {
        return outside.boxes.saturating_add(1);
    }
    outside.boxes.saturating_add(2)
}

// The source that an addition goes to: its number, what the ends of its segments say, whether its list of URLs is that in
// `pfil`, and whether it has one at all.
#[derive(Clone, Copy)]
pub struct Target {
    pub source: u64,
    pub sizes: Sizes,
    pub in_pfil: bool,
    pub listed: bool,
}

// The file that is added to: its length, what was read of it, and the source that the addition goes to.
#[derive(Clone, Copy)]
pub struct Onto {
    pub length: u64,
    pub judged: Judged,
    pub target: Target,
}

// What is asked of append: the header, the chunk list as it is counted, what of it goes outside, the texts as they are
// counted, and the layout of the boxes.
#[derive(Clone, Copy)]
pub struct Asked {
    pub header: SegmentHeader,
    pub counts: Counts,
    pub outside: Outside,
    pub texts: Texts,
    pub layout: Layout,
}

// Where the source of the list in `pfil` ends beside a new segment alone, which is of that source or not, and gives its
// size or not.
fn end_beside(in_pfil: bool, gives: bool, end: Position) -> Option<Position>
    ensures { ((p : Position) → result ≡ Some p → p.0 ≤ end.0)
        × ((h : Heading) (s : Segment) → in_pfil ≡ same_urls h.urls s.urls → gives ≡ gives_size s → end.0 ≡ segmentEnd s
        → end_of result ≡ size_for (s ∷ []) h.urls) }
{
    if !in_pfil {
        return None;
    }
    gives.then_some(end)
}

// 36, 37 and 39 of the file's own index beside a new segment, which has none, where the source of the list in `pfil`
// ends there. The index of a file that has a segment was told when it was read, and is told again.
fn index_beside(
    file: &[u8],
    indexed: bool,
    segments: u64,
    size: Option<Position>,
) -> Result<(), Refusal>
    ensures { (h : Heading) (ss : List Segment) (s : Segment) → Known file.now h ss indexed
        → segments ≡ length ss → those fidx s.inner ≡ [] → s.source ≡ source_beside ss s.urls → end_of size ≡ size_for (s ∷ []) h.urls
        → ((p : Position) → size ≡ Some p → p.0 ≤ source_limit)
        → admitted_answer result ≡ indexed_beside file.now h ss s }
{
    if segments != 0 {
        return Ok(());
    }
    let mut sizes = [0; ALL_SIZES];
    let sources = [0; ALL_SOURCES];
    let said = Sizes {
        size,
        largest: Position(0),
        same: true,
    };
    put_sizes(&mut sizes, ONE_SOURCE, said);
    index_stages(file, indexed, false, &sizes, &sources, ONE_SOURCE)?;
    Ok(())
}

// 13, 41, 22, 23, 25 and 40 of the new segment, by what was gathered of those before it and what the ends of its own
// source say, since the sizes of every other agree, and then the index beside it.
fn admitted(
    file: &[u8],
    indexed: bool,
    gathered: Gathered,
    target: Target,
    header: SegmentHeader,
    counts: Counts,
) -> Result<(), Refusal>
    ensures { (right : Bool) (h : Heading) (ss : List Segment) (s : Segment) → Known file.now h ss indexed
        → gathered ≡ gathered_of ss → Goes h ss s.urls target → s.source ≡ source_beside ss s.urls
        → Tells s header (saying right counts) → those fidx s.inner ≡ [] → admitted_answer result ≡ admitted_beside file.now h ss s }
{
    let offset = header.offset;
    if SEGMENT_LIMIT <= gathered.segments {
        return Err(Refusal::TooManySegments);
    }
    if !target.listed {
        return Err(Refusal::NoUrl);
    }
    if !ends_by(gathered.chunks, counts.items, CHUNK_LIMIT) {
        return Err(Refusal::TooManyChunks);
    }
    if !ends_by(offset.0, counts.sum, SOURCE_LIMIT) {
        return Err(Refusal::SourceTooLong);
    }
    let gives = gives_size(header.flags as u64 % 2, counts.items);
    let said = target.sizes;
    let end = Position(offset.0 + counts.sum);
    let with = said.with(end, gives);
    if !with.agree() {
        return Err(Refusal::SizesDiffer);
    }
    if LAYER_LIMIT <= target.source {
        return Err(Refusal::TooManySources);
    }
    let size = end_beside(target.in_pfil, gives, end);
    index_beside(file, indexed, gathered.segments, size)
}

// The length of the file with the addition, or the number of the first refusal that the result would have, whatever the
// counts say of whether the items are right: that is asked when they are counted.
pub fn admission(file: &[u8], onto: Onto, asked: Asked) -> Result<u64, Refusal>
    ensures { (right : Bool) (h : Heading) (ss : List Segment) (a : Addition) → Beside file.now h ss onto.judged
        → Goes h ss (new_urls h a) onto.target → AskedBy a (asked_saying right asked)
        → number_answer result ≡ admitted_length file.now h ss onto.length a }
{
    let n = onto.length;
    let judged = onto.judged;
    let head = judged.head;
    let counts = asked.counts;
    let added = asked.layout.added;
    if !ends_by(n, added, FILE_LIMIT) {
        return Err(Refusal::FileTooLong);
    }
    if !ends_by(head.boxes, added_boxes(counts, asked.outside), BOX_LIMIT) {
        return Err(Refusal::TooManyBoxes);
    }
    if !ends_by(PLAIN_BOXES, asked.texts.surls, BOX_LIMIT) {
        return Err(Refusal::TooManyBoxes);
    }
    admitted(
        file,
        head.indexed,
        judged.gathered,
        onto.target,
        asked.header,
        counts,
    )?;
    Ok(n + added)
}
