// The fields of an indexed box and its end in the source, judged.
ghost use Rattle.std.specs.Prelude.{◌≡◌};
ghost use Rattle.boxes.specs.Answer.{told_as};
ghost use Rattle.boxes.specs.Framing.{box_of};
ghost use Rattle.indexing.specs.Ends.{end_of};
ghost use Rattle.indexing.specs.Fields.{fields_of};
ghost use Rattle.indexing.specs.Head.{judged_end, head_in, head_told};

use crate::fields::{IndexFields, index_fields};
use crate::spot::Spot;
use boxes::framing::Framed;
use numerals::order::ends_by;
use partial::limits::SOURCE_LIMIT;
use partial::position::Position;
use refusals::Refusal;

// Where a box ends that stands there: a size of 0 runs to the end of what encloses it. No end that is not known is
// judged.
fn judged_end(spot: Spot, x: IndexFields) -> Result<Option<Position>, Refusal>
    ensures { told_as end_of result ≡ judged_end (end_of spot.enclosing) spot.place.0 (fields_of x) }
{
    let place = spot.place;
    if let Some(size) = x.size {
        if size < x.front {
            return Err(Refusal::IndexWrong);
        }
        if !ends_by(place.0, size, SOURCE_LIMIT) {
            return Err(Refusal::IndexWrong);
        }
        return Ok(Some(Position(place.0 + size)));
    }
    if let Some(at) = spot.enclosing {
        if SOURCE_LIMIT < at.0 {
            return Err(Refusal::IndexWrong);
        }
        if !ends_by(place.0, x.front, at.0) {
            return Err(Refusal::IndexWrong);
        }
    }
    Ok(spot.enclosing)
}

// The fields of a `bidx` that is the last of its list or another, and where its box ends that stands there.
pub(crate) fn head_of(
    file: &[u8],
    b: Framed,
    spot: Spot,
    last: bool,
) -> Result<(IndexFields, Option<Position>), Refusal>
    ensures { told_as head_told result ≡ head_in file.now (box_of b) (end_of spot.enclosing) last spot.place.0 }
{
    let x = index_fields(file, b)?;
    if !last && x.size.is_none() {
        return Err(Refusal::IndexWrong);
    }
    let end = judged_end(spot, x)?;
    Ok((x, end))
}
