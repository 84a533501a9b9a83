// The index list and the indexed box, which call each other: a level has a list and its boxes.
ghost use Rattle.std.specs.Prelude.{List, ◌≡◌, eqb};
ghost use Rattle.boxes.specs.Answer.{given};
ghost use Rattle.boxes.specs.Bodies.{boxes_of};
ghost use Rattle.boxes.specs.Framing.{Box, box_of};
ghost use Rattle.boxes.specs.Kinds.{bidx, those};
ghost use Rattle.partial.specs.Index.{wherever};
ghost use Rattle.indexing.specs.Ends.{end_of};
ghost use Rattle.indexing.specs.Lists.{list_on, box_on, ListReady, BoxReady, Counted, Listed};

use crate::head::head_of;
use crate::inner::inner_of;
use crate::marks::{Marks, deepened, put_box};
use crate::spot::Spot;
use boxes::body::Body;
use boxes::framing::Framed;
use boxes::kinds::{BIDX, Container};
use boxes::walk::Walk;
use partial::limits::LEVEL_LIMIT;
use partial::position::Position;
use refusals::Refusal;

// Whether the last box of a list ends where the box does that holds the list; no end that is not known is judged.
fn fills(end: Option<Position>, last: Option<Position>) -> bool
    ensures { result ≡ wherever (λ filled. wherever (eqb filled) (end_of end)) (end_of last) }
{
    match (last, end) {
        (Some(to), Some(at)) => to.0 == at.0,
        _ => true,
    }
}

// The `bidx` boxes of a list, so many, from where it stands on, each where the one before it ends: what is marked with
// them, and where the last of them ends.
#[cycle(index_list_indexed_box)]
pub(crate) fn index_list(
    file: &[u8],
    body: Body,
    many: u64,
    spot: Spot,
    before: Marks,
    table: &mut [u64],
) -> Result<(Marks, Option<Position>), Refusal>
    requires { ListReady file.now body many spot.level spot.place.0 before.count }
    ensures { Counted body.end.0 result × ((bs : List Box) → boxes_of file.now body ≡ given bs
        → Listed (list_on file.now spot.level (end_of spot.enclosing) spot.place.0 (those bidx bs)) before
        table.old table.new result) }
{
    let mut walk = Walk::new(body);
    let mut marks = before;
    let mut place = spot.place;
    let mut filled = None;
    let mut left = many;
    while let Some((b, next)) = walk.step(file)? {
        walk = next;
        if b.kind == BIDX {
            left -= 1;
            let at = Spot { place, ..spot };
            let (more, to) = indexed_box(file, b, at, left == 0, marks, table)?;
            marks = more;
            filled = to;
            place = to.unwrap_or(place);
        }
    }
    Ok((marks, filled))
}

// One of them where it stands, the last or another: its own fields, then the list inside, behind its header and front
// part, whose boxes have to fill it where there are some. What is marked with all of them, and where it ends.
#[cycle(index_list_indexed_box)]
fn indexed_box(
    file: &[u8],
    b: Framed,
    spot: Spot,
    last: bool,
    before: Marks,
    table: &mut [u64],
) -> Result<(Marks, Option<Position>), Refusal>
    requires { BoxReady b spot.level spot.place.0 before.count }
    ensures { Counted b.end.0 result
        × Listed (box_on file.now spot.level (end_of spot.enclosing) last spot.place.0 (box_of b)) before
        table.old table.new result }
{
    let (x, end) = head_of(file, b, spot, last)?;
    let inside = Body {
        container: Container::Bidx,
        start: x.list,
        end: b.end,
    };
    let (many, part) = inner_of(file, inside)?;
    let level = spot.level;
    let place = spot.place;
    let marks = put_box(table, before, level, place, end, x.kind);
    if level == LEVEL_LIMIT {
        return Ok((deepened(marks, many), end));
    }
    let under = Spot {
        level: level + 1,
        enclosing: end,
        place: Position(place.0 + x.front + part),
    };
    let (more, filled) = index_list(file, inside, many, under, marks, table)?;
    if !fills(end, filled) {
        return Err(Refusal::IndexWrong);
    }
    Ok((more, end))
}
