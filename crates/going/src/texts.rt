// The texts of an addition, cut by the list of their lengths, held against the URLs of a container.
ghost use Rattle.std.specs.Prelude.{◌≤◌, List, ◌≡◌, length};
ghost use Rattle.boxes.specs.Answer.{given};
ghost use Rattle.boxes.specs.Bodies.{boxes_of};
ghost use Rattle.boxes.specs.Framing.{Box};
ghost use Rattle.partial.specs.Heading.{urls_in};
ghost use Rattle.partial.specs.Sources.{same_urls};
ghost use Rattle.surls.specs.Parts.{Within};
ghost use Rattle.going.specs.Texts.{urls_of, Passes, Behind};

use boxes::body::Body;
use boxes::framing::Framed;
use boxes::kinds::SURL;
use boxes::walk::Walk;
use surls::texts::url_of;

// Where the texts that are left begin, and the pair of lengths that comes next: both lists stay as the calls of writing
// are lent them.
#[derive(Clone, Copy)]
struct Cut {
    from: usize,
    pair: usize,
}

// What is left behind a box of the container, of which the URL is held against the next of the texts; any other than a
// `surl` is passed. None where the lists differ.
fn held_against(file: &[u8], b: Framed, texts: &[u8], lengths: &[u64], cut: Cut) -> Option<Cut>
    requires { (cut.from ≤ length texts.now) × Within (length file.now) b }
    ensures { Passes file.now b texts.now lengths.now cut result }
{
    if b.kind != SURL {
        return Some(cut);
    }
    let pair = cut.pair;
    if lengths.len() / 2 <= pair {
        return None;
    }
    let size = texts.len() as u64;
    let middle = (cut.from as u64)
        .saturating_add(lengths[2 * pair])
        .min(size);
    let end = middle.saturating_add(lengths[2 * pair + 1]).min(size);
    if url_of(file, b).bytes(file) != &texts[cut.from..middle as usize] {
        return None;
    }
    Some(Cut {
        from: end as usize,
        pair: pair + 1,
    })
}

// What is left behind all boxes of a container. None where the lists differ.
fn left_behind(file: &[u8], list: Body, texts: &[u8], lengths: &[u64]) -> Option<Cut>
    requires { list.end.0 ≤ length file.now }
    ensures { (bs : List Box) → boxes_of file.now list ≡ given bs → Behind file.now texts.now lengths.now bs result }
{
    let mut walk = Walk::new(list);
    let mut cut = Cut { from: 0, pair: 0 };
    while let Some((b, next)) = walk.step(file).ok()? {
        cut = held_against(file, b, texts, lengths, cut)?;
        walk = next;
    }
    Some(cut)
}

// Whether the URLs of a container are those of the texts, byte by byte and in the same order. MIME texts are not
// compared.
pub fn same_texts(file: &[u8], list: Body, texts: &[u8], lengths: &[u64]) -> bool
    ensures { (bs : List Box) → boxes_of file.now list ≡ given bs
        → list.end.0 ≤ length file.now
        → result ≡ same_urls (urls_in file.now bs) (urls_of texts.now lengths.now) }
{
    if (file.len() as u64) < list.end.0 {
        return false;
    }
    match left_behind(file, list, texts, lengths) {
        Some(cut) => lengths.len() / 2 <= cut.pair,
        None => false,
    }
}
