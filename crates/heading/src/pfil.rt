// Refusals 9 to 11: the `pfil` box, the framing of its body, and the `pfhd` and the `surl` boxes in it.
ghost use Rattle.std.specs.Prelude.{List, ◌≡◌, ◌≤◌, length};
ghost use Rattle.boxes.specs.Answer.{given};
ghost use Rattle.boxes.specs.Bodies.{boxes_of};
ghost use Rattle.boxes.specs.Framing.{Box, box_of};
ghost use Rattle.boxes.specs.Kinds.{box_at};
ghost use Rattle.tallying.specs.Rules.{tally_of};
ghost use Rattle.partial.specs.Heading.{pfil_right, pfhd_formed, pfhd_right, judged};
ghost use Rattle.heading.specs.Facts.{told, headed_answer};
ghost use Rattle.heading.specs.Steps.{Fronted};

use crate::answers::Head;
use boxes::body::Body;
use boxes::framing::Framed;
use boxes::kinds::{Container, FIDX, PFHD, PFIL, PSEG};
use numerals::numbers::unsigned;
use refusals::Refusal;
use surls::first::{Text, first_text};
use surls::formed::surls_formed;
use tallying::counting::tally;
use tallying::find::first_of;
use tallying::rules::keeps;
use tallying::tally::Tally;

// Whether the second box of the file is `pfil`, and the only one.
pub(crate) fn pfil_right(b: Framed, boxes: Tally) -> bool
    ensures { (bs : List Box) → boxes ≡ tally_of bs → box_of b ≡ box_at 1 bs → result ≡ pfil_right bs }
{
    b.kind == PFIL && keeps(Container::File, PFIL, boxes.of(PFIL))
}

// Whether a `pfhd` has version 0, flags, and nothing more.
fn pfhd_formed(file: &[u8], b: Framed) -> bool
    ensures { result ≡ pfhd_formed file.now (box_of b) }
{
    b.end.0.saturating_sub(b.body.0) == 4 && unsigned(file, b.body, 1) == 0
}

// Whether `pfil` has exactly one `pfhd`, and it is well-formed.
fn pfhd_right(file: &[u8], list: Body, inner: Tally) -> bool
    ensures { (bs : List Box) → boxes_of file.now list ≡ given bs → inner ≡ tally_of bs → result ≡ pfhd_right file.now bs }
{
    if !keeps(Container::Pfil, PFHD, inner.of(PFHD)) {
        return false;
    }
    match first_of(file, list, PFHD) {
        Some(b) => pfhd_formed(file, b),
        None => false,
    }
}

// What the heading tells of a file that passed stages 1 to 9, or the refusal that its `pfil` has.
pub(crate) fn inner_of(file: &[u8], b: Framed, boxes: Tally, mixed: bool) -> Result<Head, Refusal>
    ensures { (bs : List Box) → boxes ≡ tally_of bs → box_of b ≡ box_at 1 bs → b.end.0 ≤ length file.now
        → Fronted file.now mixed bs
        → headed_answer result ≡ told file.now (judged file.now bs) }
{
    let list = b.as_container(Container::Pfil);
    let inner = tally(file, list)?;
    if !pfhd_right(file, list, inner) {
        return Err(Refusal::PfhdWrong);
    }
    if !surls_formed(file, list) {
        return Err(Refusal::SurlWrong);
    }
    Ok(Head {
        boxes: boxes.boxes,
        segments: boxes.of(PSEG),
        mixed,
        indexed: inner.of(FIDX) != 0,
        list,
        url: first_text(file, list, Text::Url),
        mime: first_text(file, list, Text::Mime),
    })
}
