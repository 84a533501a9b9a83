// The rows of a file's chunks, made of what is kept of it: the rows of its segments and a number for each chunk.
ghost use Rattle.std.specs.Prelude.{ℕ, ◌+◌, ◌*◌, ◌≤◌, List, ◌≡◌, length};
ghost use Rattle.partial.specs.Limits.{chunk_limit};
ghost use Rattle.partial.specs.Segments.{Chunk, Segment};
ghost use Rattle.partial.specs.Tables.{chunk_row_length, chunk_rows_of, chunk_rows};
ghost use Rattle.filling.specs.Rows.{Put};
ghost use Rattle.gathering.specs.Kept.{ChunksKept, Kept};

use crate::numbers::chunk_by;
use crate::rows::put_chunk;
use partial::limits::{CHUNK_LIMIT, SEGMENT_LIMIT};
use partial::position::Position;
use partial::rows::{ALL_NUMBERS, ALL_SEGMENT_ROWS, SEGMENT_ROW};

// Puts the rows of so many chunks of a segment, by the numbers from one on, of which the first starts there.
fn put_rows(
    numbers: &[u64; ALL_NUMBERS],
    at: u64,
    count: u64,
    segment: u64,
    first: Position,
    table: &mut [u64],
)
    requires { at + count ≤ chunk_limit }
    ensures { (cs : List Chunk) → count ≡ length cs → ChunksKept numbers.now at first.0 cs
        → Put table.old (chunk_row_length * at) (chunk_rows_of segment 0 cs) table.new }
{
    let mut start = first;
    for i in 0..count {
        let c = chunk_by(numbers[(at + i) as usize], start);
        put_chunk(table, false, at + i, segment, i, c);
        start = Position(start.0.saturating_add(c.size));
    }
}

// Puts the rows of the chunks of so many segments into a table that has room for them all. The rows of the segments lie
// in fixed memory, with room for as many as a file may have, so that their number stands beside them.
pub fn fill_rows(
    segments: &[u64; ALL_SEGMENT_ROWS],
    many: u64,
    numbers: &[u64; ALL_NUMBERS],
    table: &mut [u64],
)
    ensures { (sources : List ℕ) (ss : List Segment) → Kept segments.now many sources numbers.now ss → Put table.old 0 (chunk_rows ss) table.new }
{
    if SEGMENT_LIMIT < many {
        return;
    }
    let mut at = 0;
    for k in 0..many {
        let row = (SEGMENT_ROW * k) as usize;
        let first = segments[row + 1];
        let count = segments[row + 4];
        if CHUNK_LIMIT - at < count {
            return;
        }
        put_rows(numbers, at, count, k, Position(first), table);
        at += count;
    }
}
