// Bytes, numbers and box headers, put into a lent buffer. Each put hands on where its piece ends; a piece for which
// there is no room is counted alone, and so is a value that its field does not hold. An end past 64 bits counts as the
// largest number that they hold.
ghost use Rattle.std.specs.Prelude.{◌+◌, min};
ghost use Rattle.boxes.specs.Framing.{front_size, front};
ghost use Rattle.numerals.specs.Numbers.{bytes_of, twos_complement, holds, holds_offset};
ghost use Rattle.texts.specs.Pieces.{PutsPiece};
ghost use Rattle.puts.specs.Pieces.{PutsField, large_front};

use boxes::framing::{FRONT_SIZE, put_header};
use boxes::kinds::Kind;
use numerals::numbers::{Offset, put_number, within};
use numerals::place::Place;
use texts::puts::put_text;

// The bytes of a header in the large form: the size field 1, the type, the size in 64 bits.
const LARGE_FRONT_SIZE: usize = 16;

// The largest body of a box whose size 64 bits hold.
const LARGE_BODY: u64 = u64::MAX - LARGE_FRONT_SIZE as u64;

// Puts bytes, in one block copy.
pub fn put_bytes(buffer: &mut [u8], at: Place, bytes: &[u8]) -> Place
    ensures { PutsPiece buffer.old at.0 bytes.now buffer.new result.0 }
{
    Place(put_text(buffer, at.0, bytes))
}

// Puts a number of that width; a width over 8 counts as 8.
pub fn put_field(buffer: &mut [u8], at: Place, width: usize, n: u64) -> Place
    ensures { PutsField (holds (min width 8) n) buffer.old at.0 (bytes_of (min width 8) n) buffer.new result.0 }
{
    put_number(buffer, at, width, n);
    Place(at.0.saturating_add(within(width) as u64))
}

// Puts an offset of that width; a width over 8 counts as 8.
pub fn put_offset(buffer: &mut [u8], at: Place, width: usize, z: Offset) -> Place
    ensures { PutsField (holds_offset (min width 8) z) buffer.old at.0 (bytes_of (min width 8) (twos_complement (min width 8) z)) buffer.new result.0 }
{
    numerals::numbers::put_offset(buffer, at, width, z);
    Place(at.0.saturating_add(within(width) as u64))
}

// Puts the header of a box with a body of n bytes; 32 bits have to hold the size of the box.
pub fn put_front(buffer: &mut [u8], at: Place, kind: Kind, n: u64) -> Place
    ensures { PutsField (holds 4 (front_size + n)) buffer.old at.0 (front kind.code n) buffer.new result.0 }
{
    put_header(buffer, at, kind, n);
    Place(at.0.saturating_add(FRONT_SIZE))
}

// Puts the header of a box with a body of n bytes in the large form, as one piece; 64 bits have to hold the size of the
// box.
pub fn put_large_front(buffer: &mut [u8], at: Place, kind: Kind, n: u64) -> Place
    ensures { PutsField (holds 8 (16 + n)) buffer.old at.0 (large_front kind.code n) buffer.new result.0 }
{
    if LARGE_BODY < n {
        return Place(at.0.saturating_add(LARGE_FRONT_SIZE as u64));
    }
    let mut front = [0u8; LARGE_FRONT_SIZE];
    put_number(&mut front, Place(0), 8, 0x1_0000_0000 + kind.code as u64);
    put_number(&mut front, Place(8), 8, LARGE_FRONT_SIZE as u64 + n);
    put_bytes(buffer, at, &front)
}
