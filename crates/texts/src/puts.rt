// Pieces of text, put into a lent buffer. Each put hands on where its piece ends; a piece for which there is no room is
// counted alone, so that a buffer without room tells how long a text will be. An end past 64 bits counts as the largest
// number that they hold.
ghost use Rattle.std.specs.Prelude.{◌+◌, ◌≤◌};
ghost use Rattle.partial.specs.Map.{decimal};
ghost use Rattle.texts.specs.Pieces.{PutsPiece};

use io::decimal;

// Puts bytes.
pub fn put_text(buffer: &mut [u8], at: u64, text: &[u8]) -> u64
    ensures { PutsPiece buffer.old at text.now buffer.new result }
{
    let next = at.saturating_add(text.len() as u64);
    if (buffer.len() as u64) < next {
        return next;
    }
    buffer[at as usize..next as usize].copy_from_slice(text);
    next
}

// Puts a number in decimal.
pub fn put_decimal(buffer: &mut [u8], at: u64, n: u64) -> u64
    ensures { PutsPiece buffer.old at (decimal n) buffer.new result × (result ≤ at + 20) }
{
    let mut text = [0u8; 20];
    let count = decimal(n, &mut text);
    put_text(buffer, at, &text[..count])
}
