// A stretch of the source.
use partial::position::Position;

// From its first position to its end.
#[derive(Clone, Copy)]
pub struct Span {
    pub first: Position,
    pub end: Position,
}

// A span that holds nothing, which a new table has everywhere.
pub const NO_SPAN: Span = Span {
    first: Position(0),
    end: Position(0),
};
