// The spans of what the damaged chunks of a source cover.
ghost use Rattle.std.specs.Prelude.{◌≤◌, List, length, take};
ghost use Rattle.partial.specs.Segments.{Segment, damaged, chunks_of};
ghost use Rattle.partial.specs.Sources.{of_source};
ghost use Rattle.spans.specs.Chunks.{many_of};
ghost use Rattle.spans.specs.KeptOf.{KeptOf};
ghost use Rattle.spans.specs.Spans.{Ordered};
ghost use Rattle.mapping.specs.Outline.{Damage};

use fields::state::State;
use partial::position::Position;
use spans::files::file_spans;
use spans::kept::Kept;
use spans::span::Span;

// Puts the spans, ordered, and answers how many they are; none where the missing positions are not named.
pub(crate) fn file_damage(
    kept: Kept<'_>,
    source: u64,
    end: Position,
    named: bool,
    table: &mut [Span],
) -> usize
    ensures { Ordered table.new result end.0 × ((ss : List Segment)
        → KeptOf kept.entry ss
        → many_of damaged (chunks_of (of_source source ss)) ≤ length table.old
        → Damage (of_source source ss) named (take result table.new) end.0) }
{
    if !named {
        return 0;
    }
    file_spans(kept, State::Damaged.number(), source, end, table)
}
