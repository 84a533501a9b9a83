// The lines of a text that tell a number: that of a refused file, which it has in the place of a text, and that of a
// framing error.
ghost use Rattle.std.specs.Prelude.{◌+◌, ◌≤◌};
ghost use Rattle.partial.specs.BoxList.{fault_line};
ghost use Rattle.partial.specs.Map.{refused_line};
ghost use Rattle.texts.specs.Pieces.{PutsPiece};

use crate::puts::{put_decimal, put_text};

// The bytes of `refused`, its tab, the longest number and the line feed.
const REFUSED_LONGEST: usize = 29;

// The bytes of the longest place, a tab, the longest number and the line feed.
const FAULT_LONGEST: usize = 42;

// Puts `refused` and the number, as one piece: without room for the whole line none of it is written.
pub fn put_refused(buffer: &mut [u8], at: u64, n: u64) -> u64
    ensures { PutsPiece buffer.old at (refused_line n) buffer.new result × (result ≤ at + 29) }
{
    let mut line = [0u8; REFUSED_LONGEST];
    let number = put_text(&mut line, 0, b"refused\t");
    let end = put_decimal(&mut line, number, n);
    let size = put_text(&mut line, end, b"\n") as usize;
    put_text(buffer, at, &line[..size])
}

// Puts the place and the number of a framing error, as one piece.
pub fn put_fault(buffer: &mut [u8], at: u64, place: u64, n: u64) -> u64
    ensures { PutsPiece buffer.old at (fault_line (record { at = place; number = n })) buffer.new result × (result ≤ at + 42) }
{
    let mut line = [0u8; FAULT_LONGEST];
    let tab = put_decimal(&mut line, 0, place);
    let last = put_text(&mut line, tab, b"\t");
    let end = put_decimal(&mut line, last, n);
    let size = put_text(&mut line, end, b"\n") as usize;
    put_text(buffer, at, &line[..size])
}
