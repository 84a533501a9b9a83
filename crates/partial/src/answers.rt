// What the calls answer where they do not refuse: the values that document 01 names.
use crate::position::Position;

// Reading: how many rows of each table were filled, how many sources there are, the described length of one, and
// whether its size is known.
#[derive(Clone, Copy)]
pub struct Tables {
    pub segments: u64,
    pub chunks: u64,
    pub sources: u64,
    pub described: Position,
    pub closed: bool,
}

// Asking of a position: served or missing, each with how many positions in a row, or not below the described length.
#[derive(Clone, Copy)]
pub enum Asked {
    Served(u64),
    Missing(u64),
    NotBelow,
}

// Listing: how many ranges each list has, and the received and missing totals.
#[derive(Clone, Copy)]
pub struct Lists {
    pub had: u64,
    pub missing: u64,
    pub received_total: u64,
    pub missing_total: u64,
}
