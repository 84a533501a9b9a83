// The fields of a `pshd`.
ghost use Rattle.std.specs.Prelude.{◌≡◌};
ghost use Rattle.boxes.specs.Answer.{told_as};
ghost use Rattle.boxes.specs.Framing.{box_of};
ghost use Rattle.partial.specs.Reading.{offset_width_of};
ghost use Rattle.fields.specs.Fields.{fields_of};

use boxes::framing::Framed;
use numerals::numbers::unsigned;
use numerals::place::Place;
use partial::position::Position;
use refusals::Refusal;

// The flags, `source_byte_offset`, which is not yet held against its limit, and `last_repair_time`.
#[derive(Clone, Copy)]
pub struct Fields {
    pub flags: u64,
    pub offset: Position,
    pub repair: u64,
}

// The bytes of `source_byte_offset` in a version.
fn offset_width(version: u64) -> usize
    ensures { result ≡ offset_width_of version }
{
    if version == 0 { 4 } else { 8 }
}

// The fields of a box that is a `pshd`, if they end where the box ends.
pub fn fields_of(s: &[u8], b: Framed) -> Result<Fields, Refusal>
    ensures { told_as (λ p. p) result ≡ fields_of s.now (box_of b) }
{
    let body = b.body;
    let end = b.end;
    let width = offset_width(unsigned(s, body, 1));
    if end.0 < body.0 {
        return Err(Refusal::PshdWrong);
    }
    // Beside the offset there are 4 bytes of version and flags before it and 8 of `last_repair_time` after it.
    if end.0 - body.0 != width as u64 + 12 {
        return Err(Refusal::PshdWrong);
    }
    Ok(Fields {
        flags: unsigned(s, Place(body.0 + 1), 3),
        offset: Position(unsigned(s, Place(body.0 + 4), width)),
        repair: unsigned(s, Place(end.0 - 8), 8),
    })
}
