// What is known of a file whose maps are put.
use ends::table::ALL_SIZES;
use spans::kept::Kept;

// What is kept of it, how many chunks and sources there are, and what the ends say of the size of each source.
#[derive(Clone, Copy)]
pub struct Film<'a> {
    pub kept: Kept<'a>,
    pub chunks: u64,
    pub sources: u64,
    pub sizes: &'a [u64; ALL_SIZES],
}
