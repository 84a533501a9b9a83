// The fields of a `bidx`.
ghost use Rattle.std.specs.Prelude.{◌+◌, ◌^◌, ◌<◌, ◌≡◌};
ghost use Rattle.boxes.specs.Answer.{told_as};
ghost use Rattle.boxes.specs.Framing.{box_of};
ghost use Rattle.numerals.specs.Numbers.{number};
ghost use Rattle.partial.specs.Index.{size_by, front_by, index_fields};
ghost use Rattle.indexing.specs.Fields.{fields_of};

use boxes::framing::{Framed, user_size};
use boxes::kinds::Kind;
use numerals::numbers::unsigned;
use numerals::order::ends_by;
use numerals::place::Place;
use refusals::Refusal;

// What they say of a box of the source: its size, none for one that runs to the end; how many bytes its header has; its
// type. And where the list of the `bidx` starts.
#[derive(Clone, Copy)]
pub struct IndexFields {
    pub size: Option<u64>,
    pub front: u64,
    pub kind: Kind,
    pub list: Place,
}

// How many bytes the header has of a box with that 32-bit size and type.
fn front_of(short: u64, kind: Kind) -> u64
    ensures { result ≡ front_by short kind.code }
{
    if short == 1 {
        16 + user_size(kind)
    } else {
        8 + user_size(kind)
    }
}

// The size that the fields at a place state, of which the 32-bit one was read.
fn size_of(file: &[u8], at: Place, short: u64) -> Option<u64>
    requires { at.0 + 8 < 2 ^ 64 }
    ensures { result ≡ size_by short (number file.now (at.0 + 8) 8) }
{
    if short == 0 {
        return None;
    }
    if short == 1 {
        return Some(unsigned(file, Place(at.0 + 8), 8));
    }
    Some(short)
}

// The fields of a `bidx`, none of which may be cut.
pub(crate) fn index_fields(file: &[u8], b: Framed) -> Result<IndexFields, Refusal>
    ensures { told_as fields_of result ≡ index_fields file.now (box_of b) }
{
    let body = b.body;
    let end = b.end;
    if !ends_by(body.0, 8, end.0) {
        return Err(Refusal::IndexWrong);
    }
    let short = unsigned(file, body, 4);
    let code = unsigned(file, Place(body.0 + 4), 4) as u32;
    let kind = Kind { code };
    let front = front_of(short, kind);
    if !ends_by(body.0, front, end.0) {
        return Err(Refusal::IndexWrong);
    }
    Ok(IndexFields {
        size: size_of(file, body, short),
        front,
        kind,
        list: Place(body.0 + front),
    })
}
