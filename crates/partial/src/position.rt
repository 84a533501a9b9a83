// Positions in the source.

// How many bytes of the source stand before it. A place in the partial file is another type.
#[derive(Clone, Copy)]
pub struct Position(pub u64);
