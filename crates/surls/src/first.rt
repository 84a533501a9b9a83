// The texts of the first `surl` of a container.
ghost use Rattle.std.specs.Prelude.{◌≤◌, List, ◌≡◌, ltb, length};
ghost use Rattle.boxes.specs.Answer.{given};
ghost use Rattle.boxes.specs.Bodies.{boxes_of};
ghost use Rattle.boxes.specs.Framing.{Box};
ghost use Rattle.boxes.specs.Kinds.{surl, those};
ghost use Rattle.partial.specs.Tables.{first_text};
ghost use Rattle.surls.specs.First.{text_in};
ghost use Rattle.surls.specs.Parts.{part_of};

use crate::part::Part;
use crate::texts::{mime_of, url_of};
use boxes::body::Body;
use boxes::kinds::SURL;
use tallying::find::first_of;

// Which of the two texts of a `surl`.
#[derive(Clone, Copy)]
pub enum Text {
    Url,
    Mime,
}

// Whether a container has a `surl`.
pub fn has_surl(file: &[u8], list: Body) -> bool
    ensures { (bs : List Box) → boxes_of file.now list ≡ given bs → result ≡ ltb 0 (length (those surl bs)) }
{
    first_of(file, list, SURL).is_some()
}

// The URL or the MIME text of the first `surl` of a container; of one that has none it is empty.
pub fn first_text(file: &[u8], list: Body, which: Text) -> Part
    ensures { (bs : List Box) → boxes_of file.now list ≡ given bs
        → list.end.0 ≤ length file.now → part_of result ≡ first_text (text_in which) file.now bs }
{
    match (first_of(file, list, SURL), which) {
        (None, _) => Part::NOWHERE,
        (Some(first), Text::Url) => url_of(file, first),
        (Some(first), Text::Mime) => mime_of(file, first),
    }
}
