// How much of a box is served, by the ranges had: a first position and a length each, ascending and apart.
ghost use Rattle.std.specs.Prelude.{◌≤◌, List, ◌≡◌, length};
ghost use Rattle.partial.specs.Index.{served_of};
ghost use Rattle.partial.specs.Segments.{Segment};
ghost use Rattle.indexrows.specs.Serving.{HadIn, Ended, served_no};

use numerals::order::ends_by;
use partial::position::Position;

// How many of its positions are served, each with its number.
#[derive(Clone, Copy)]
pub(crate) enum Served {
    Nothing = 0,
    Part = 1,
    All = 2,
}

impl Served {
    // Its number.
    pub(crate) fn number(self) -> u64
        ensures { result ≡ served_no self }
    {
        self as u64
    }
}

// How many of the ranges end by a place, by halves.
fn ended_by(had: &[[u64; 2]], place: Position) -> usize
    ensures { (result ≤ length had.now) × ((ss : List Segment) → HadIn ss had.now → Ended had.now place.0 result) }
{
    had.partition_point(|r| ends_by(r[0], r[1], place.0))
}

// How many of so many positions from a place on are served: the first range that ends behind the place decides it.
pub(crate) fn served_of(had: &[[u64; 2]], place: Position, size: u64) -> Served
    ensures { (ss : List Segment) → HadIn ss had.now → served_no result ≡ served_of ss place.0 size }
{
    if size == 0 {
        return Served::All;
    }
    let k = ended_by(had, place);
    if k == had.len() {
        return Served::Nothing;
    }
    let first = had[k][0];
    if ends_by(place.0, size, first) {
        return Served::Nothing;
    }
    if place.0 < first {
        return Served::Part;
    }
    if ends_by(place.0 - first, size, had[k][1]) {
        Served::All
    } else {
        Served::Part
    }
}
