// The two texts of `surl` boxes and their lengths, put into lent memory one behind the other. What has no room is counted
// alone, so that memory without room tells how much there will be.
ghost use Rattle.std.specs.Prelude.{◌≤◌, List, [], ◌∷◌, ◌≡◌, length};
ghost use Rattle.boxes.specs.Answer.{given};
ghost use Rattle.boxes.specs.Bodies.{boxes_of};
ghost use Rattle.boxes.specs.Framing.{Box, box_of};
ghost use Rattle.partial.specs.Texts.{surls_in};
ghost use Rattle.surls.specs.Parts.{Within};
ghost use Rattle.surltexts.specs.Putting.{surl_of, PutsSurls, Behind, nothing};

use crate::answers::Texts;
use boxes::body::Body;
use boxes::framing::Framed;
use boxes::kinds::SURL;
use boxes::walk::Walk;
use filling::rows::put_row;
use surls::texts::{mime_of, url_of};
use texts::puts::put_text;

// Puts the URL and the MIME text of a `surl`, and the lengths of both, behind so many others.
fn put_surl(file: &[u8], b: Framed, before: Texts, texts: &mut [u8], lengths: &mut [u64]) -> Texts
    ensures { Within (length file.now) b → Behind b.body.0 before
        → PutsSurls (surl_of file.now (box_of b) ∷ []) before texts.old texts.new lengths.old lengths.new result
        × (result.bytes ≤ b.end.0) × (result.lengths ≤ b.end.0) }
{
    let url = url_of(file, b);
    let mime = mime_of(file, b);
    let middle = put_text(texts, before.bytes, url.bytes(file));
    let bytes = put_text(texts, middle, mime.bytes(file));
    let row = [url.size, mime.size];
    put_row(lengths, before.lengths as usize, &row);
    Texts {
        bytes,
        lengths: before.lengths.saturating_add(2),
    }
}

// Puts those of each `surl` of a container whose framing is known to be right.
pub(crate) fn put_surls(file: &[u8], list: Body, texts: &mut [u8], lengths: &mut [u64]) -> Texts
    ensures { (bs : List Box) → boxes_of file.now list ≡ given bs
        → list.end.0 ≤ length file.now
        → PutsSurls (surls_in file.now bs) nothing texts.old texts.new lengths.old lengths.new result }
{
    let mut walk = Walk::new(list);
    let mut amount = Texts::default();
    while let Some((b, next)) = walk.step(file).unwrap_or(None) {
        walk = next;
        if b.kind == SURL {
            amount = put_surl(file, b, amount, texts, lengths);
        }
    }
    amount
}
