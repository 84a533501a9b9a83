// Numbers of any width from 0 to 8 bytes, unsigned and in two's complement.
ghost use Rattle.std.specs.Prelude.{ℕ, ◌+◌, ◌-◌, ◌^◌, ◌≤◌, ◌<◌, min, true, ◌≡◌, length, get_or, MatchOption};
ghost use Rattle.numerals.specs.Numbers.{number, bytes_of, signed, twos_complement, holds, holds_offset, least_width};
ghost use Rattle.numerals.specs.Stored.{stored, Stores};

use crate::place::Place;

// A signed number: so many ahead, or so many back. Its size stands apart from its sign, so that adding it to a place
// can neither lose the sign nor wrap.
#[derive(Clone, Copy, PartialEq, Eq)]
pub enum Offset {
    Ahead(u64),
    Back(u64),
}

// A width over 8 counts as 8.
pub fn within(width: usize) -> usize
    ensures { result ≡ min width 8 }
{
    width.min(8)
}

// The byte so many after one, 0 past the end.
fn byte_after(s: &[u8], from: usize, i: usize) -> u8
    ensures { result ≡ get_or s.now (from + i) 0 }
{
    s.get(from.saturating_add(i)).copied().unwrap_or(0)
}

// The number of w bytes from one on, byte by byte. Those past the end count as 0.
fn by_bytes(s: &[u8], from: usize, w: usize) -> u64
    requires { w ≤ 8 }
    ensures { result ≡ number s.now from w }
{
    let mut n = 0;
    for i in 0..w {
        n = n * 256 + u64::from(byte_after(s, from, i));
    }
    n
}

// The number of the eight bytes from one on, if so many stand there. Their end is tested and none of them alone, so that
// the compiler makes one load of them.
fn eight(s: &[u8], from: usize) -> Option<u64>
    ensures { MatchOption result (length s.now < from + 8) (λ n. n ≡ number s.now from 8) }
{
    if s.len() < 8 || s.len() - 8 < from {
        return None;
    }
    let bytes = s[from..from + 8].first_chunk()?;
    Some(u64::from_be_bytes(*bytes))
}

// The number of that width at a place, worked out straight from the bytes: where eight stand there, it is what is left
// of these when the ones behind it are shifted out. Bytes past the end count as 0.
pub fn unsigned(s: &[u8], at: Place, width: usize) -> u64
    ensures { result ≡ number s.now at.0 (min width 8) }
{
    let w = within(width);
    if w == 0 {
        return 0;
    }
    let from = at.0 as usize;
    match eight(s, from) {
        Some(n) => n >> (64 - 8 * w),
        None => by_bytes(s, from, w),
    }
}

// The largest number of w bytes: one more would not fit where w is 8.
fn largest(w: usize) -> u64
    requires { w ≤ 8 }
    ensures { result + 1 ≡ 256 ^ w }
{
    if w == 0 {
        return 0;
    }
    u64::MAX >> (64 - 8 * w)
}

// The offset of that width at a place, in two's complement.
pub fn signed(s: &[u8], at: Place, width: usize) -> Offset
    ensures { result ≡ signed (min width 8) (number s.now at.0 (min width 8)) }
{
    let n = unsigned(s, at, width);
    let top = largest(within(width));
    if n <= top / 2 {
        Offset::Ahead(n)
    } else {
        Offset::Back(top - n + 1)
    }
}

// The w bytes of a number.
fn store(buf: &mut [u8], from: usize, w: usize, n: u64)
    requires { (w ≤ 8) × (from + w ≤ length buf.old) }
    ensures { buf.new ≡ stored buf.old from (bytes_of w n) }
{
    let bytes = n.to_be_bytes();
    buf[from..from + w].copy_from_slice(&bytes[8 - w..]);
}

// Writes a number in that width at a place, if the width holds it and there is room; else the buffer stays as it was.
pub fn put_number(buf: &mut [u8], at: Place, width: usize, n: u64) -> bool
    ensures { Stores (holds (min width 8) n) buf.old at.0 (bytes_of (min width 8) n) result buf.new }
{
    let w = within(width);
    let from = at.0 as usize;
    if largest(w) < n {
        return false;
    }
    if buf.len() < from || buf.len() - from < w {
        return false;
    }
    store(buf, from, w, n);
    true
}

// Whether w bytes hold an offset: half of their numbers are back, and half are ahead or 0. No bytes hold 0 alone.
fn holds_offset(w: usize, z: Offset) -> bool
    requires { w ≤ 8 }
    ensures { result ≡ holds_offset w z }
{
    let top = largest(w);
    match z {
        Offset::Ahead(n) => n <= top / 2,
        Offset::Back(n) => n <= top / 2 + top % 2,
    }
}

// A number of w bytes that stand for an offset. None back would be the power of 256, which does not fit; 0 has the same
// bytes.
fn complement(w: usize, z: Offset) -> u64
    requires { (w ≤ 8) × (holds_offset w z ≡ true) }
    ensures { (holds w result ≡ true) × (bytes_of w result ≡ bytes_of w (twos_complement w z)) }
{
    match z {
        Offset::Ahead(n) => n,
        Offset::Back(n) => {
            if n == 0 {
                return 0;
            }
            largest(w) - n + 1
        }
    }
}

// Writes an offset in that width at a place, in two's complement, if the width holds it and there is room; else the
// buffer stays as it was.
pub fn put_offset(buf: &mut [u8], at: Place, width: usize, z: Offset) -> bool
    ensures { Stores (holds_offset (min width 8) z) buf.old at.0 (bytes_of (min width 8) (twos_complement (min width 8) z)) result buf.new }
{
    let w = within(width);
    if !holds_offset(w, z) {
        return false;
    }
    put_number(buf, at, width, complement(w, z))
}

// The least width that holds a number.
pub fn width_of(n: u64) -> usize
    ensures { result ≡ least_width (λ w. holds w n) }
{
    for w in 0..8 {
        if n <= largest(w) {
            return w;
        }
    }
    8
}

// 2 to the 62: past that, the double of a number takes 8 bytes in any case.
const DOUBLED: u64 = 1 << 62;

// A number as wide as an offset: its size twice, for the sign, less one if it is back, since each width holds one more
// back than ahead.
fn spread(z: Offset) -> u64
    ensures { (w : ℕ) → w < 8 → holds w result ≡ holds_offset w z }
{
    match z {
        Offset::Ahead(n) => 2 * n.min(DOUBLED),
        Offset::Back(n) => {
            if n == 0 {
                return 0;
            }
            2 * n.min(DOUBLED) - 1
        }
    }
}

// The least width that holds an offset.
pub fn width_of_offset(z: Offset) -> usize
    ensures { result ≡ least_width (λ w. holds_offset w z) }
{
    width_of(spread(z))
}
