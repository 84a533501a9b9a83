// The spans of the chunks of one state of a source, in order.
ghost use Rattle.std.specs.Prelude.{◌≤◌, List, length};
ghost use Rattle.partial.specs.Segments.{Segment, chunks_of};
ghost use Rattle.partial.specs.Sources.{of_source};
ghost use Rattle.spans.specs.Chunks.{many_of, SpansOf};
ghost use Rattle.spans.specs.KeptOf.{KeptOf};
ghost use Rattle.spans.specs.Spans.{Ordered};

use crate::chunks::spans_of;
use crate::kept::Kept;
use crate::ordering::order;
use crate::span::Span;
use partial::position::Position;
use partial::rows::{ALL_NUMBERS, ALL_SEGMENT_ROWS};
use sources::numbers::ALL_SOURCES;

// Puts them into a table, and answers how many they are, by what is kept of so many segments.
pub fn file_spans(
    kept: Kept<'_>,
    state: u64,
    source: u64,
    end: Position,
    table: &mut [Span],
) -> usize
    ensures { Ordered table.new result end.0
        × ((ss : List Segment) → KeptOf kept.entry ss
        → many_of state (chunks_of (of_source source ss)) ≤ length table.old
        → SpansOf state (chunks_of (of_source source ss)) end.0 table.new result) }
{
    let n = spans_of(kept, state, source, end, table);
    order(table, n);
    n
}
