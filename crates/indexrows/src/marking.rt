// What is served of each box of an index by its own source, put into its row.
ghost use Rattle.std.specs.Prelude.{ℕ, ◌+◌, ◌*◌, ◌≤◌, List, ◌≡◌, length};
ghost use Rattle.partial.specs.Index.{SourceBox, index_row_length};
ghost use Rattle.partial.specs.Limits.{segment_limit};
ghost use Rattle.partial.specs.Memory.{filled};
ghost use Rattle.partial.specs.Segments.{Segment};
ghost use Rattle.partial.specs.Sources.{of_source};
ghost use Rattle.indexrows.specs.Marking.{AcceptedIn, rows_with, marked, marked_below};
ghost use Rattle.indexrows.specs.Serving.{HadIn};

use crate::serving::served_of;
use ends::table::{ALL_SIZES, sizes_at};
use fields::state::State;
use listing::lists::put_lists;
use partial::position::Position;
use partial::rows::INDEX_ROW;
use spans::chunks::ALL_SPANS;
use spans::files::file_spans;
use spans::kept::Kept;
use spans::span::NO_SPAN;

// The numbers of as many ranges as a source may have: one, and one more for each segment and each chunk. There is room
// for all of them, since the call works in memory that is fixed.
const ALL_RANGES: usize = 2_178;

// Puts what is served, by the ranges had of a source, behind the level, place, size and type of each of so many boxes
// that has the number of that source there, behind the three that say what is served.
fn mark(table: &mut [u64], count: u64, source: u64, had: &[[u64; 2]])
    requires { (index_row_length * count ≤ length table.old) × (source ≤ segment_limit) }
    ensures { (mine : List Segment) (is : List SourceBox) (say : SourceBox → ℕ) → HadIn mine had.now → count ≡ length is
        → table.old ≡ filled (rows_with say is) table.old
        → table.new ≡ filled (rows_with (marked source mine say) is) table.old }
{
    let unmarked = source + 3;
    for i in 0..count {
        let at = (INDEX_ROW * i) as usize;
        if table[at + 4] == unmarked {
            let place = Position(table[at + 1]);
            let size = table[at + 2];
            table[at + 4] = served_of(had, place, size).number();
        }
    }
}

// The same by the chunks of a source of an accepted file that is kept: its ranges had are listed first.
fn mark_by(source: u64, kept: Kept<'_>, sizes: &[u64; ALL_SIZES], count: u64, table: &mut [u64])
    requires { (index_row_length * count ≤ length table.old) × (source ≤ segment_limit)
        × ((ss : List Segment) × AcceptedIn kept sizes.now ss) }
    ensures { (ss : List Segment) (is : List SourceBox) (say : SourceBox → ℕ)
        → AcceptedIn kept.entry sizes.now ss → count ≡ length is
        → table.old ≡ filled (rows_with say is) table.old
        → table.new ≡ filled (rows_with (marked source (of_source source ss) say) is) table.old }
{
    let end = sizes_at(sizes, source).described();
    let mut spans = [NO_SPAN; ALL_SPANS];
    let n = file_spans(kept, State::Good.number(), source, end, &mut spans);
    let mut had = [0; ALL_RANGES];
    let lists = put_lists(&spans[..n], end, &mut had, &mut []);
    let (ranges, _) = had.as_chunks();
    mark(table, count, source, &ranges[..lists.had as usize]);
}

// The same by each of the sources below a number.
pub(crate) fn mark_all(
    below: u64,
    kept: Kept<'_>,
    sizes: &[u64; ALL_SIZES],
    count: u64,
    table: &mut [u64],
)
    requires { (index_row_length * count ≤ length table.old) × (below ≤ segment_limit + 1)
        × ((ss : List Segment) × AcceptedIn kept sizes.now ss) }
    ensures { (ss : List Segment) (is : List SourceBox)
        → AcceptedIn kept.entry sizes.now ss → count ≡ length is
        → table.old ≡ filled (rows_with (marked_below ss 0) is) table.old
        → table.new ≡ filled (rows_with (marked_below ss below) is) table.old }
{
    for source in 0..below {
        mark_by(source, kept, sizes, count, table);
    }
}
