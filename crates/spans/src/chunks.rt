// The spans of the chunks of one state of a source, made of what is kept of a file.
ghost use Rattle.std.specs.Prelude.{◌+◌, ◌≤◌, ◌<◌, List, ◌≡◌, length, MatchOption};
ghost use Rattle.partial.specs.Limits.{chunk_limit};
ghost use Rattle.partial.specs.Segments.{Segment, chunks_of};
ghost use Rattle.partial.specs.Sources.{of_source};
ghost use Rattle.segment.specs.Chunk.{chunk_of};
ghost use Rattle.spans.specs.Chunks.{many_of, SpanEnd, Taken, SpansOf, Extends};
ghost use Rattle.spans.specs.KeptOf.{KeptOf};
ghost use Rattle.spans.specs.Spans.{Spans};

use crate::kept::Kept;
use crate::put::join_span;
use crate::span::Span;
use gathering::numbers::chunk_by;
use partial::limits::{CHUNK_LIMIT, SEGMENT_LIMIT};
use partial::position::Position;
use partial::rows::{ALL_NUMBERS, ALL_SEGMENT_ROWS, SEGMENT_ROW};
use segment::chunk::Chunk;
use sources::numbers::ALL_SOURCES;

// As many spans as a file may have chunks.
pub const ALL_SPANS: usize = 1_024;

// The span of what a chunk of a state covers below an end, if it covers anything there.
fn span_of(c: Chunk, state: u64, end: Position) -> Option<Span>
    ensures { MatchOption result (SpanEnd state (chunk_of c) end.0 c.start.0) (λ s. (s.first.0 ≡ c.start.0) × (c.start.0 < s.end.0) × SpanEnd state (chunk_of c) end.0 s.end.0) }
{
    if c.state.number() != state {
        return None;
    }
    let first = c.start;
    let to = first.0.saturating_add(c.size).min(end.0);
    if to <= first.0 {
        return None;
    }
    Some(Span {
        first,
        end: Position(to),
    })
}

// Takes a chunk into a table of so many spans, and answers how many there are then: no more where it is of another
// state, or covers nothing below an end, or has no room. The table is fixed memory, so that how many spans it has stands
// beside it.
fn take_chunk(table: &mut [Span], n: usize, c: Chunk, state: u64, end: Position) -> usize
    ensures { Taken state end.0 (chunk_of c) table.old n table.new result }
{
    let Some(span) = span_of(c, state, end) else {
        return n;
    };
    if table.len() <= n {
        return n;
    }
    join_span(table, n, span)
}

// Takes so many chunks of a segment into a table of so many spans, by the numbers from one on, of which the first
// starts there.
fn take_segment(
    numbers: &[u64; ALL_NUMBERS],
    at: u64,
    count: u64,
    first: Position,
    state: u64,
    end: Position,
    table: &mut [Span],
    before: usize,
) -> usize
    requires { at + count ≤ chunk_limit }
    ensures { (Spans table.old before end.0 → Spans table.new result end.0)
        × Extends state numbers.now at count first.0 end.0 table.old before table.new result }
{
    let mut n = before;
    let mut start = first;
    for number in &numbers[at as usize..(at + count) as usize] {
        let c = chunk_by(*number, start);
        n = take_chunk(table, n, c, state, end);
        start = Position(start.0.saturating_add(c.size));
    }
    n
}

// Puts the spans of what the chunks of a state of a source cover below an end into a table, and answers how many they
// are, by what is kept of so many segments, whatever their sources; of all of them where the table has room for a span
// of each.
pub fn spans_of(kept: Kept<'_>, state: u64, source: u64, end: Position, table: &mut [Span]) -> usize
    ensures { Spans table.new result end.0
        × ((ss : List Segment) → KeptOf kept.entry ss
        → many_of state (chunks_of (of_source source ss)) ≤ length table.old
        → SpansOf state (chunks_of (of_source source ss)) end.0 table.new result) }
{
    if SEGMENT_LIMIT < kept.many {
        return 0;
    }
    let mut n = 0;
    let mut at = 0;
    for k in 0..kept.many {
        let row = (SEGMENT_ROW * k) as usize;
        let first = kept.segments[row + 1];
        let count = kept.segments[row + 4];
        if CHUNK_LIMIT - at < count {
            return n;
        }
        if kept.sources[k as usize] == source {
            n = take_segment(
                kept.numbers,
                at,
                count,
                Position(first),
                state,
                end,
                table,
                n,
            );
        }
        at += count;
    }
    n
}
