// Places in a partial file.

// How many bytes of the file stand before it. A position in the source is another type.
#[derive(Clone, Copy, PartialEq, Eq)]
pub struct Place(pub u64);
