// Bytes of a file as text: in hex digits, or as they are where they print.
ghost use Rattle.std.specs.Prelude.{◌+◌, ◌<◌, ◌≤◌, ◌^◌, ◌≡◌, length};
ghost use Rattle.filling.specs.Rows.{Puts};
ghost use Rattle.partial.specs.BoxList.{hex, prints, shown, each};
ghost use Rattle.boxlisting.specs.Bytes.{byte_text};

use io::hex;
use texts::puts::put_text;

// Puts a byte in two hex digits.
fn put_hex(buffer: &mut [u8], at: u64, b: u8) -> u64
    requires { at < 2 ^ 61 }
    ensures { Puts buffer.old at (hex b) buffer.new result × (result ≤ at + 2) }
{
    let mut text = [0u8; 16];
    let count = hex(b as u64, 2, &mut text);
    put_text(buffer, at, &text[..count])
}

// Whether a byte prints.
#[tactic(auto, unfolding(partial::specs::BoxList::prints))]
fn prints(b: u8) -> bool
    ensures { result ≡ prints b }
{
    matches!(b, 32..=126)
}

// Puts a byte as it is where it prints, and else `\x` and two hex digits.
fn put_shown(buffer: &mut [u8], at: u64, b: u8) -> u64
    requires { at < 2 ^ 60 }
    ensures { Puts buffer.old at (shown b) buffer.new result × (result ≤ at + 4) }
{
    if prints(b) {
        let one = [b];
        return put_text(buffer, at, &one);
    }
    let digits = put_text(buffer, at, b"\\x");
    put_hex(buffer, digits, b)
}

// Puts a byte in one of the two ways. A flag tells which: what a function that is passed in would put, and how much at
// most, had to be said of it at each call.
fn put_byte(buffer: &mut [u8], at: u64, b: u8, in_hex: bool) -> u64
    requires { at < 2 ^ 60 }
    ensures { Puts buffer.old at (byte_text in_hex b) buffer.new result × (result ≤ at + 4) }
{
    if in_hex {
        return put_hex(buffer, at, b);
    }
    put_shown(buffer, at, b)
}

// Puts some bytes in one of the two ways.
pub(crate) fn put_each(buffer: &mut [u8], at: u64, bytes: &[u8], in_hex: bool) -> u64
    requires { (at < 2 ^ 59) × (length bytes.now ≤ 16) }
    ensures { Puts buffer.old at (each (byte_text in_hex) bytes.now) buffer.new result × (result ≤ at + 64) }
{
    let mut next = at;
    for b in bytes {
        next = put_byte(buffer, next, *b, in_hex);
    }
    next
}
