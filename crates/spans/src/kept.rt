// What is kept of a file, of which the spans of its chunks are made.
use partial::rows::{ALL_NUMBERS, ALL_SEGMENT_ROWS};
use sources::numbers::ALL_SOURCES;

// How many segments there are, their rows, the numbers of their sources, and those of their chunks.
#[derive(Clone, Copy)]
pub struct Kept<'a> {
    pub many: u64,
    pub segments: &'a [u64; ALL_SEGMENT_ROWS],
    pub sources: &'a [u64; ALL_SOURCES],
    pub numbers: &'a [u64; ALL_NUMBERS],
}
