// The `surl` boxes, as they are written.
ghost use Rattle.std.specs.Prelude.{◌+◌, ◌<◌, ◌^◌, min, [], ◌∷◌, ◌++◌, ◌≡◌, length};
ghost use Rattle.additions.specs.Addition.{surls_of};
ghost use Rattle.additions.specs.Append.{surl_boxes};
ghost use Rattle.additions.specs.Begin.{surl_box};
ghost use Rattle.puts.specs.Pieces.{PutsPieces};

use crate::pieces::{put_bytes, put_field, put_front};
use boxes::framing::FRONT_SIZE;
use boxes::kinds::SURL;
use numerals::place::Place;

// Version, flags and the zero bytes that close the two texts.
const SURL_BODY: u64 = 6;

// The bytes of the box but for the two texts.
pub const SURL_SIZE: u64 = FRONT_SIZE + SURL_BODY;

// Puts a text and the zero byte that closes it.
fn put_closed(buffer: &mut [u8], at: Place, text: &[u8]) -> Place
    ensures { PutsPieces buffer.old at.0 (text.now ++ (0 ∷ [])) buffer.new result.0 }
{
    let end = put_bytes(buffer, at, text);
    put_field(buffer, end, 1, 0)
}

// Puts `surl`: version 0, flags 0, the two texts; 32 bits have to hold its size.
pub fn put_surl(buffer: &mut [u8], at: Place, url: &[u8], mime: &[u8]) -> Place
    ensures { length (surl_box url.now mime.now) < 2 ^ 32
        → PutsPieces buffer.old at.0 (surl_box url.now mime.now) buffer.new result.0 }
{
    let n = (SURL_BODY + url.len() as u64).saturating_add(mime.len() as u64);
    let body = put_front(buffer, at, SURL, n);
    let first = put_field(buffer, body, 4, 0);
    let second = put_closed(buffer, first, url);
    put_closed(buffer, second, mime)
}

// Where so many bytes from one on end, at most where all do.
fn end_by(from: usize, n: u64, all: usize) -> usize
    ensures { result ≡ min (from + n) all }
{
    (from as u64).saturating_add(n).min(all as u64) as usize
}

// Puts the `surl` boxes of texts, which a list of their lengths cuts, URL and MIME by turns; 32 bits have to hold the
// size of all.
pub fn put_surls(buffer: &mut [u8], at: Place, texts: &[u8], lengths: &[u64]) -> Place
    ensures { length (surl_boxes (surls_of texts.now lengths.now)) < 2 ^ 32
        → PutsPieces buffer.old at.0 (surl_boxes (surls_of texts.now lengths.now)) buffer.new result.0 }
{
    let mut next = at;
    let mut from = 0;
    for i in 0..lengths.len() / 2 {
        let middle = end_by(from, lengths[2 * i], texts.len());
        let end = end_by(middle, lengths[2 * i + 1], texts.len());
        next = put_surl(buffer, next, &texts[from..middle], &texts[middle..end]);
        from = end;
    }
    next
}
