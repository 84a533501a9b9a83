// The index in a container, `pfil` or `pseg`.
ghost use Rattle.std.specs.Prelude.{List, ◌≡◌, ◌↔◌, IsTrue};
ghost use Rattle.boxes.specs.Framing.{Box, box_of};
ghost use Rattle.indexing.specs.Ends.{end_of};
ghost use Rattle.indexing.specs.Index.{list_in, Bounded, Contained, Indexes, CountedIn};
ghost use Rattle.indexing.specs.Lists.{Counted, Listed};

use crate::lists::index_list;
use crate::marks::Marks;
use crate::spot::Spot;
use boxes::body::Body;
use boxes::framing::Framed;
use boxes::kinds::{BIDX, Container, FIDX};
use partial::limits::{FILE_LIMIT, SOURCE_LIMIT};
use partial::position::Position;
use refusals::Refusal;
use tallying::counting::tally;
use tallying::find::first_of;
use tallying::rules::keeps;

// Whether a list lies in a file, behind sixteen bytes for each row, and its boxes start in a source: no number that is
// made of these is over 64 bits.
fn bounded(b: Framed, from: Position, before: Marks) -> bool
    ensures { IsTrue result ↔ Bounded b from.0 before.count }
{
    let body = b.body;
    let end = b.end;
    body.0 <= end.0 && end.0 <= FILE_LIMIT && from.0 <= SOURCE_LIMIT && before.count <= body.0 / 16
}

// The list of a `fidx`, whose boxes start at a place of the source: what is marked with them, and where the last ends.
fn list_of(
    file: &[u8],
    b: Framed,
    size: Option<Position>,
    from: Position,
    before: Marks,
    table: &mut [u64],
) -> Result<(Marks, Option<Position>), Refusal>
    ensures { Counted b.end.0 result × (Bounded b from.0 before.count
        → Listed (list_in file.now (box_of b) (end_of size) from.0) before table.old table.new result) }
{
    if !bounded(b, from, before) {
        return Err(Refusal::IndexWrong);
    }
    let body = b.as_container(Container::Fidx);
    let inner = tally(file, body).or(Err(Refusal::IndexWrong))?;
    let spot = Spot {
        level: 1,
        enclosing: size,
        place: from,
    };
    index_list(file, body, inner.of(BIDX), spot, before, table)
}

// What is marked with the index in a container, if it has one, of a source that ends there: its `fidx`, whose boxes
// start at a place of the source. A container with a fault has no known boxes, and no index here.
pub fn index_in(
    file: &[u8],
    body: Body,
    size: Option<Position>,
    from: Position,
    before: Marks,
    table: &mut [u64],
) -> Result<Option<Marks>, Refusal>
    ensures { (bs : List Box) → Contained file.now body from.0 before.count bs
        → Indexes file.now body.container bs (end_of size) from.0 before table.old table.new result
        × CountedIn body.end.0 before result }
{
    let Ok(counts) = tally(file, body) else {
        return Ok(None);
    };
    if !keeps(body.container, FIDX, counts.of(FIDX)) {
        return Err(Refusal::IndexWrong);
    }
    // Most containers have none: it is not walked again for that.
    if counts.of(FIDX) == 0 {
        return Ok(None);
    }
    let Some(list) = first_of(file, body, FIDX) else {
        return Ok(None);
    };
    let (marks, _) = list_of(file, list, size, from, before, table)?;
    Ok(Some(marks))
}
