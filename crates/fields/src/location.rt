// The head of a `ploc`.
ghost use Rattle.std.specs.Prelude.{◌≡◌};
ghost use Rattle.boxes.specs.Answer.{told_as};
ghost use Rattle.boxes.specs.Framing.{box_of};
ghost use Rattle.partial.specs.Entries.{ploc_head};
ghost use Rattle.fields.specs.Location.{head_of};

use boxes::framing::Framed;
use numerals::numbers::unsigned;
use numerals::order::ends_by;
use numerals::place::Place;
use refusals::Refusal;

// The two widths of its entries, its `chunk_count`, and the places of its first entry and of its end.
#[derive(Clone, Copy)]
pub struct Location {
    pub length_size: usize,
    pub offset_size: usize,
    pub count: u64,
    pub first: Place,
    pub end: Place,
}

// The bytes of a head.
const HEAD_SIZE: u64 = 9;

// The head of a box that is a `ploc`.
pub fn location_of(s: &[u8], b: Framed) -> Result<Location, Refusal>
    ensures { told_as head_of result ≡ ploc_head s.now (box_of b) }
{
    let body = b.body;
    let end = b.end;
    if !ends_by(body.0, HEAD_SIZE, end.0) {
        return Err(Refusal::PlocWrong);
    }
    if unsigned(s, body, 4) != 0 {
        return Err(Refusal::PlocWrong);
    }
    let widths = unsigned(s, Place(body.0 + 4), 1);
    if 8 < widths / 16 {
        return Err(Refusal::WidthWrong);
    }
    if 8 < widths % 16 {
        return Err(Refusal::WidthWrong);
    }
    if unsigned(s, Place(body.0 + 5), 2) != 0 {
        return Err(Refusal::DataElsewhere);
    }
    Ok(Location {
        length_size: (widths / 16) as usize,
        offset_size: (widths % 16) as usize,
        count: unsigned(s, Place(body.0 + 7), 2),
        first: Place(body.0 + HEAD_SIZE),
        end,
    })
}
