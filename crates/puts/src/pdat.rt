// The data of an addition, as it is written: the `pdat` with what goes there, and the chunks outside.
ghost use Rattle.std.specs.Prelude.{ℕ, ◌<◌, ◌^◌, ◌≡◌, length};
ghost use Rattle.additions.specs.Addition.{items, data_for, goes_in};
ghost use Rattle.puts.specs.Boxes.{chosen, data_part};
ghost use Rattle.puts.specs.Pieces.{PutsPieces};

use crate::pieces::{put_bytes, put_front};
use boxes::kinds::PDAT;
use fields::state::present;
use numerals::place::Place;
use outside::items::{end_of, goes_out};

// Whether an item's data is among what goes outside, or else among what goes into `pdat`.
fn is_chosen(outside: bool, out: bool, state: u64) -> bool
    ensures { (size : ℕ) → result ≡ chosen outside out (record { size = size; state = state }) }
{
    if goes_out(outside, state) {
        return out;
    }
    !out && present(state)
}

// Copies what goes outside, or else what goes into `pdat`, out of the data of all in chunk order: each chunk in one
// block copy.
pub fn put_chosen(
    buffer: &mut [u8],
    at: Place,
    outside: bool,
    out: bool,
    list: &[u64],
    bytes: &[u8],
) -> Place
    ensures { PutsPieces buffer.old at.0 (data_for (chosen outside out) (items list.now) bytes.now) buffer.new result.0 }
{
    let mut next = at;
    let mut from = 0;
    for i in 0..list.len() / 2 {
        let size = list[2 * i];
        let state = list[2 * i + 1];
        let end = end_of(from, size, state, bytes.len());
        if is_chosen(outside, out, state) {
            next = put_bytes(buffer, next, &bytes[from..end]);
        }
        from = end;
    }
    next
}

// Puts the `pdat`, where there is one, with the data that goes there, so many bytes; 32 bits have to hold its size.
pub fn put_pdat(
    buffer: &mut [u8],
    at: Place,
    outside: bool,
    there: bool,
    size: u64,
    list: &[u64],
    bytes: &[u8],
) -> Place
    ensures { size ≡ length (data_for (goes_in outside) (items list.now) bytes.now)
        → length (data_part outside there list.now bytes.now) < 2 ^ 32
        → PutsPieces buffer.old at.0 (data_part outside there list.now bytes.now) buffer.new result.0 }
{
    if !there {
        return at;
    }
    let body = put_front(buffer, at, PDAT, size);
    put_chosen(buffer, body, outside, false, list, bytes)
}
