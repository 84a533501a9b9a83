// What is marked of the boxes of an index, one behind the other: their rows, whether one is of a ninth level, and
// whether an end is not known.
ghost use Rattle.std.specs.Prelude.{ℕ, ◌+◌, ◌*◌, ◌≤◌, ◌<◌, List, [], ◌∷◌, map, ◌≡◌, length};
ghost use Rattle.boxes.specs.Framing.{Box};
ghost use Rattle.partial.specs.Index.{indexed_size, untold, level_limit};
ghost use Rattle.partial.specs.Limits.{file_limit};
ghost use Rattle.indexing.specs.Ends.{end_of};
ghost use Rattle.indexing.specs.Marks.{indexed_of, Marked};

use boxes::kinds::Kind;
use filling::rows::put_row;
use partial::position::Position;
use partial::rows::INDEX_ROW;

// How many rows there are, whether a box of a ninth level was met, and whether an end that is not known.
#[derive(Clone, Copy, Default)]
pub struct Marks {
    pub count: u64,
    pub deep: bool,
    pub unknown: bool,
}

// How many bytes a box has that starts at a place, none where its end is not known.
fn size_from(place: Position, end: Option<Position>) -> u64
    ensures { (level kind : ℕ) → result ≡ indexed_size (indexed_of level place.0 (end_of end) kind) }
{
    match end {
        Some(at) => at.0.saturating_sub(place.0),
        None => 0,
    }
}

// The marks with so many boxes of a ninth level, which are not looked into.
pub(crate) fn deepened(marks: Marks, many: u64) -> Marks
    ensures { (result.count ≡ marks.count) × ((level : ℕ) (bs : List Box) (t : List ℕ) → level_limit < level
        → many ≡ length bs → Marked marks t (map (untold level) bs) result t) }
{
    Marks {
        deep: marks.deep || many != 0,
        ..marks
    }
}

// Writes the row of an indexed box behind those before it: its level, its place in the source, its size, its type; what
// is served of it is put in later.
pub(crate) fn put_box(
    table: &mut [u64],
    before: Marks,
    level: u64,
    place: Position,
    end: Option<Position>,
    kind: Kind,
) -> Marks
    requires { (16 * before.count ≤ file_limit) × (level ≤ level_limit) }
    ensures { (result.count ≡ before.count + 1)
        × Marked before table.old (indexed_of level place.0 (end_of end) kind.code ∷ []) result table.new }
{
    let size = size_from(place, end);
    let row = [level, place.0, size, kind.code as u64, 0];
    put_row(table, (INDEX_ROW * before.count) as usize, &row);
    Marks {
        count: before.count + 1,
        unknown: before.unknown || end.is_none(),
        ..before
    }
}
