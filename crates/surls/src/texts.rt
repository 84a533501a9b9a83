// The two texts of a `surl` box: its URL and its MIME text.
ghost use Rattle.std.specs.List.{position_or_len};
ghost use Rattle.std.specs.Prelude.{◌≡◌, length, eqb};
ghost use Rattle.boxes.specs.Framing.{box_of};
ghost use Rattle.partial.specs.Heading.{text, url, mime};
ghost use Rattle.surls.specs.Parts.{part_of, Within};

use crate::part::Part;
use boxes::framing::Framed;
use numerals::place::Place;

// How many bytes stand before the first zero byte, or how many there are if none is zero.
fn before_zero(bytes: &[u8]) -> usize
    ensures { result ≡ position_or_len (λ byte. eqb byte 0) bytes.now }
{
    bytes.iter().take_while(|byte| **byte != 0).count()
}

// The text from a place up to the first zero byte before an end, or up to that end. The bytes past the file are zeros.
fn text_at(file: &[u8], at: Place, end: Place) -> Part
    ensures { part_of result ≡ text file.now at.0 end.0 }
{
    let there = Part {
        place: at,
        size: end.0.saturating_sub(at.0),
    }
    .bytes(file);
    Part {
        place: at,
        size: before_zero(there) as u64,
    }
}

// The URL, after the version and the flags.
pub fn url_of(file: &[u8], b: Framed) -> Part
    ensures { Within (length file.now) b → part_of result ≡ url file.now (box_of b) }
{
    text_at(file, Place(b.body.0.saturating_add(4)), b.end)
}

// The MIME text, after the zero byte that closes the URL.
pub fn mime_of(file: &[u8], b: Framed) -> Part
    ensures { Within (length file.now) b → part_of result ≡ mime file.now (box_of b) }
{
    let url = url_of(file, b);
    let ends = url.place.0.saturating_add(url.size);
    text_at(file, Place(ends.saturating_add(1)), b.end)
}
