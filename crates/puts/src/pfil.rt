// The `pfil` box with its `pfhd` and its `surl`, as it is written.
ghost use Rattle.std.specs.Prelude.{◌<◌, ◌^◌, length};
ghost use Rattle.puts.specs.Boxes.{pfhd_box, pfil_box};
ghost use Rattle.puts.specs.Pieces.{PutsPieces};

use crate::pieces::{put_field, put_front};
use crate::surl::{SURL_SIZE, put_surl};
use boxes::framing::FRONT_SIZE;
use boxes::kinds::{PFHD, PFIL};
use numerals::place::Place;

// Version and flags.
const PFHD_BODY: u64 = 4;

// Both boxes, but for the two texts.
const PFIL_BODY: u64 = FRONT_SIZE + PFHD_BODY + SURL_SIZE;

// The bytes of the box but for the two texts.
pub const PFIL_SIZE: u64 = FRONT_SIZE + PFIL_BODY;

// Puts `pfhd`: version 0, flags 0.
pub fn put_pfhd(buffer: &mut [u8], at: Place) -> Place
    ensures { PutsPieces buffer.old at.0 pfhd_box buffer.new result.0 }
{
    let body = put_front(buffer, at, PFHD, PFHD_BODY);
    put_field(buffer, body, 4, 0)
}

// Puts `pfil`, holding `pfhd` and one `surl`; 32 bits have to hold its size.
pub fn put_pfil(buffer: &mut [u8], at: Place, url: &[u8], mime: &[u8]) -> Place
    ensures { length (pfil_box url.now mime.now) < 2 ^ 32
        → PutsPieces buffer.old at.0 (pfil_box url.now mime.now) buffer.new result.0 }
{
    let n = (PFIL_BODY + url.len() as u64).saturating_add(mime.len() as u64);
    let body = put_front(buffer, at, PFIL, n);
    let surl = put_pfhd(buffer, body);
    put_surl(buffer, surl, url, mime)
}
