// The parts of a segment's box: refusals 14 to 16, 41, and those of the head of its `ploc`.
ghost use Rattle.std.specs.Prelude.{◌≤◌, ◌≡◌, List, length};
ghost use Rattle.boxes.specs.Answer.{given, told_as};
ghost use Rattle.boxes.specs.Framing.{Box, box_of, boxes_in};
ghost use Rattle.boxes.specs.declared.kinds.Container.TheVariants.{Pseg};
ghost use Rattle.tallying.specs.Rules.{tally_of};
ghost use Rattle.gathering.specs.Parts.{header_in, has_surl, list_held, pshd_of, parts_in, parts_of};

use boxes::framing::{Framed, header_at};
use boxes::kinds::{Container, FIDX, PLOC, PSHD, SURL};
use fields::fields::{Fields, fields_of};
use fields::location::{Location, location_of};
use refusals::Refusal;
use surls::formed::surls_formed;
use tallying::counting::tally;
use tallying::find::first_of;
use tallying::rules::keeps;
use tallying::tally::Tally;

// Its `pshd`, the fields of that, the head of its `ploc`, and whether it has an index and a list of URLs of its own.
#[derive(Clone, Copy)]
pub struct Parts {
    pub header: Framed,
    pub fields: Fields,
    pub location: Location,
    pub indexed: bool,
    pub listed: bool,
}

// The `pshd`, which is first, single and as 5.1.4.2, of a box whose boxes were counted, and its fields.
fn header_of(file: &[u8], b: Framed, inner: Tally) -> Result<(Framed, Fields), Refusal>
    ensures { (bs : List Box) → boxes_in Pseg file.now b.body.0 b.end.0 ≡ given bs → inner ≡ tally_of bs → told_as pshd_of result ≡ header_in file.now bs }
{
    if !keeps(Container::Pseg, PSHD, inner.of(PSHD)) {
        return Err(Refusal::PshdWrong);
    }
    let Ok(first) = header_at(file, Container::Pseg, b.body, b.end) else {
        return Err(Refusal::PshdWrong);
    };
    if first.kind != PSHD {
        return Err(Refusal::PshdWrong);
    }
    let fields = fields_of(file, first)?;
    Ok((first, fields))
}

// 16 and 41 of a segment that has a list of URLs of its own or not, in a file whose `pfil` has one or not.
fn check_list(file: &[u8], b: Framed, listed: bool, in_pfil: bool) -> Result<(), Refusal>
    requires { b.end.0 ≤ length file.now }
    ensures { (bs : List Box) → boxes_in Pseg file.now b.body.0 b.end.0 ≡ given bs
        → listed ≡ has_surl bs → told_as (λ x. x) result ≡ list_held file.now in_pfil bs }
{
    if listed {
        if surls_formed(file, b.as_container(Container::Pseg)) {
            return Ok(());
        }
        return Err(Refusal::SegmentSurlWrong);
    }
    if in_pfil { Ok(()) } else { Err(Refusal::NoUrl) }
}

// The parts of the box of a segment, in a file whose `pfil` has a list of URLs or not.
pub(crate) fn parts_of(file: &[u8], b: Framed, in_pfil: bool) -> Result<Parts, Refusal>
    requires { b.end.0 ≤ length file.now }
    ensures { told_as parts_of result ≡ parts_in file.now in_pfil (box_of b) }
{
    let body = b.as_container(Container::Pseg);
    let inner = tally(file, body)?;
    let (header, fields) = header_of(file, b, inner)?;
    if !keeps(Container::Pseg, PLOC, inner.of(PLOC)) {
        return Err(Refusal::PlocNotSingle);
    }
    let listed = inner.of(SURL) != 0;
    check_list(file, b, listed, in_pfil)?;
    let Some(ploc) = first_of(file, body, PLOC) else {
        return Err(Refusal::PlocNotSingle);
    };
    let location = location_of(file, ploc)?;
    Ok(Parts {
        header,
        fields,
        location,
        indexed: inner.of(FIDX) != 0,
        listed,
    })
}
