// How many numbers the rows of the lent tables and lists have.

// A segment's row.
pub const SEGMENT_ROW: u64 = 8;
// A chunk's row.
pub const CHUNK_ROW: u64 = 6;
// The row of a range.
pub const RANGE_ROW: u64 = 2;
// The row of an indexed box.
pub const INDEX_ROW: u64 = 5;
// The rows of as many segments as a file may have.
pub const ALL_SEGMENT_ROWS: usize = 512;
// The numbers of as many chunks as a file may have.
pub const ALL_NUMBERS: usize = 1_024;
