// Where an indexed box stands.
use partial::position::Position;

// On which level it stands, where what encloses it ends in the source, if that is known, and at which place of the
// source it starts. A list stands where its first box does.
#[derive(Clone, Copy)]
pub(crate) struct Spot {
    pub(crate) level: u64,
    pub(crate) enclosing: Option<Position>,
    pub(crate) place: Position,
}
