// Listing into the two lent lists, after reading into the two lent tables.
ghost use Rattle.std.specs.Prelude.{◌*◌, ◌≤◌, ◌&&◌, List, ◌≡◌, leb, length, take};
ghost use Rattle.filling.specs.Rows.{Put};
ghost use Rattle.partial.specs.Limits.{segment_limit, chunk_limit};
ghost use Rattle.partial.specs.Ranges.{had_list, missing_list};
ghost use Rattle.partial.specs.Segments.{Segment};
ghost use Rattle.partial.specs.Tables.{segment_row_length, segment_rows, chunk_rows};
ghost use Rattle.spans.specs.Files.{Spanned};
ghost use Rattle.spans.specs.Spans.{Ordered};
ghost use Rattle.listing.specs.Calls.{Counted, Told, roomy, Leaves, Listing};

use crate::lists::put_lists;
use ends::table::sizes_at;
use fields::state::State;
use filling::rows::put_row;
use gathering::kept::fill_rows;
use gathering::tables::SourceTables;
use partial::answers::Lists;
use partial::position::Position;
use partial::rows::{ALL_NUMBERS, ALL_SEGMENT_ROWS, CHUNK_ROW, RANGE_ROW, SEGMENT_ROW};
use reading::judging::judge_into;
use refusals::Refusal;
use spans::chunks::ALL_SPANS;
use spans::files::file_spans;
use spans::kept::Kept;
use spans::span::{NO_SPAN, Span};

// What the lists will hold: they are put where there is no room for them, since nothing lent is touched before it is
// known that both lists have room.
fn counted(spans: &[Span], end: Position) -> Lists
    ensures { Ordered spans.now (length spans.now) end.0 → (ss : List Segment) → Spanned ss spans.now (length spans.now) end.0 → Counted ss result }
{
    put_lists(spans, end, &mut [], &mut [])
}

// Whether two lists with so many rows each have room for their ranges, of which neither has more than `most`. These are
// counted only where a list has fewer rows than that.
fn have_room(spans: &[Span], end: Position, most: u64, had: u64, missing: u64) -> bool
    ensures { Ordered spans.now (length spans.now) end.0 → (ss : List Segment) → Spanned ss spans.now (length spans.now) end.0
        → length (had_list ss) ≤ most → length (missing_list ss) ≤ most
        → result ≡ (leb (length (had_list ss)) had && leb (length (missing_list ss)) missing) }
{
    if most <= had.min(missing) {
        return true;
    }
    let totals = counted(spans, end);
    totals.had <= had && totals.missing <= missing
}

// Puts the first so many of the rows of segments into a table.
fn put_segments(table: &mut [u64], rows: &[u64], many: u64)
    requires { (many ≤ segment_limit) × (segment_row_length * many ≤ length rows.now) }
    ensures { Put table.old 0 (take (segment_row_length * many) rows.now) table.new }
{
    let end = (SEGMENT_ROW * many) as usize;
    put_row(table, 0, &rows[..end]);
}

// Lists a source, as long as that, of a file that has room in both tables, by what is kept of the file, with so many
// chunks. Where a list has no room all four are as they were. The four are lent one by one, as C lends them.
fn list_kept(
    kept: Kept<'_>,
    count: u64,
    source: u64,
    end: Position,
    segments: &mut [u64],
    chunks: &mut [u64],
    had: &mut [u64],
    missing: &mut [u64],
) -> Result<Lists, Refusal>
    requires { (kept.many ≤ segment_limit) × (count ≤ chunk_limit) }
    ensures { (ss : List Segment) → Told kept.entry count source end.0 ss
        → length (segment_rows ss) ≤ length segments.old → length (chunk_rows ss) ≤ length chunks.old
        → Leaves (roomy source ss had.old missing.old) source segments.old segments.new
        chunks.old chunks.new had.old had.new missing.old missing.new result }
{
    let mut table = [NO_SPAN; ALL_SPANS];
    let n = file_spans(kept, State::Good.number(), source, end, &mut table);
    let spans = &table[..n];
    // Ranges had and missing take turns, and there are no more than one, and one for each segment and chunk.
    let most = (2 + kept.many + count) / 2;
    let had_rows = had.len() as u64 / RANGE_ROW;
    let missing_rows = missing.len() as u64 / RANGE_ROW;
    if !have_room(spans, end, most, had_rows, missing_rows) {
        return Err(Refusal::TableTooShort);
    }
    let rows = kept.segments;
    put_segments(segments, rows, kept.many);
    fill_rows(rows, kept.many, kept.numbers, chunks);
    Ok(put_lists(spans, end, had, missing))
}

// Lists the ranges of positions that a source of a file has and of those that are missing, and reads the file into both
// tables. After a refusal all four are as they were.
pub fn list(
    file: &[u8],
    source: u64,
    segments: &mut [u64],
    chunks: &mut [u64],
    had: &mut [u64],
    missing: &mut [u64],
) -> Result<Lists, Refusal>
    ensures { Listing file.now source segments.old segments.new chunks.old
        chunks.new had.old had.new missing.old missing.new result }
{
    // What is kept goes into tables of the call's own, so that the file is judged and kept in one pass.
    let mut rows = [0; ALL_SEGMENT_ROWS];
    let mut numbers = [0; ALL_NUMBERS];
    let mut tables = SourceTables::new();
    let judged = judge_into(file, &mut rows, &mut numbers, &mut tables)?;
    let gathered = judged.gathered;
    if segments.len() as u64 / SEGMENT_ROW < gathered.segments {
        return Err(Refusal::TableTooShort);
    }
    if chunks.len() as u64 / CHUNK_ROW < gathered.chunks {
        return Err(Refusal::TableTooShort);
    }
    let end = sizes_at(&tables.sizes, source).described();
    let kept = Kept {
        many: gathered.segments,
        segments: &rows,
        sources: &tables.sources,
        numbers: &numbers,
    };
    list_kept(
        kept,
        gathered.chunks,
        source,
        end,
        segments,
        chunks,
        had,
        missing,
    )
}
