// The brands of partial files.

// The letters `paff`, as one number.
pub const PAFF: u64 = 0x70616666;

// The letters `pmff`, of mixed partial files.
pub const PMFF: u64 = 0x706d6666;

// What a file is begun as.
#[derive(Clone, Copy)]
pub enum Brand {
    Paff,
    Pmff,
}
