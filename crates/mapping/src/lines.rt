// The lines of a map.
ghost use Rattle.std.specs.Prelude.{◌+◌, ◌<◌, ◌≤◌, ◌^◌, List, [], ◌∷◌, ◌++◌, map, ◌≡◌, length};
ghost use Rattle.filling.specs.Rows.{Puts};
ghost use Rattle.partial.specs.Map.{ascii, decimal, line, source_line, range_line};
ghost use Rattle.partial.specs.Meaning.{described_length, is_closed};
ghost use Rattle.partial.specs.Segments.{Segment};
ghost use Rattle.sweeping.specs.Classes.{class_no};
ghost use Rattle.mapping.specs.Outline.{word_of};
ghost use Rattle.mapping.specs.Totals.{told_of};

use crate::totals::Totals;
use partial::position::Position;
use sweeping::ranges::{Class, Range};
use texts::puts::{put_decimal, put_text};

// A word with its tab, or the tab alone, and the number behind it.
fn put_field(buffer: &mut [u8], at: u64, word: &[u8], n: u64) -> u64
    requires { (at < 2 ^ 62) × (length word.now ≤ 8) }
    ensures { Puts buffer.old at (word.now ++ decimal n) buffer.new result × (result ≤ at + (length word.now + 20)) }
{
    let number = put_text(buffer, at, word);
    put_decimal(buffer, number, n)
}

// The last number of a line.
fn put_last(buffer: &mut [u8], at: u64, n: u64) -> u64
    requires { at < 2 ^ 62 }
    ensures { Puts buffer.old at (9 ∷ (decimal n ++ (10 ∷ []))) buffer.new result × (result ≤ at + 22) }
{
    let end = put_field(buffer, at, b"\t", n);
    put_text(buffer, end, b"\n")
}

// `source`, the described length, `closed` or `open`.
pub(crate) fn put_source(buffer: &mut [u8], at: u64, described: Position, closed: bool) -> u64
    requires { at < 2 ^ 61 }
    ensures { ((ss : List Segment) → described.0 ≡ described_length ss → closed ≡ is_closed ss → Puts buffer.old at (source_line ss) buffer.new result) × (result ≤ at + 50) }
{
    let word = put_field(buffer, at, b"source\t", described.0);
    if closed {
        return put_text(buffer, word, b"\tclosed\n");
    }
    put_text(buffer, word, b"\topen\n")
}

// The word of a class, with its tab: `have`, and of what is missing `held` or `lost` where it is named, else `miss`.
fn word_of(class: Class, named: bool) -> [u8; 5]
    ensures value { result ≡ word_of named (class_no class) ++ (9 ∷ []) }
    ensures value_2 { 5 ≡ length result }
{
    if class == Class::Had {
        return *b"have\t";
    }
    if !named {
        return *b"miss\t";
    }
    if class == Class::Held {
        return *b"held\t";
    }
    *b"lost\t"
}

// The word of its class, the first position, the length.
pub(crate) fn put_range(buffer: &mut [u8], at: u64, first: Position, r: Range, named: bool) -> u64
    requires { at < 2 ^ 61 }
    ensures { Puts buffer.old at (range_line (word_of named) (record { class = class_no r.class; first = first.0; length = r.length })) buffer.new result × (result ≤ at + 50) }
{
    let word = word_of(r.class, named);
    let tab = put_field(buffer, at, &word, first.0);
    put_last(buffer, tab, r.length)
}

// `total`, received, and held and lost where the missing positions are named, else all that are missing.
pub(crate) fn put_total(buffer: &mut [u8], at: u64, totals: Totals, named: bool) -> u64
    requires { at < 2 ^ 61 }
    ensures { Puts buffer.old at (line (ascii "total") (map decimal (told_of named totals))) buffer.new result × (result ≤ at + 75) }
{
    let tab = put_field(buffer, at, b"total\t", totals.received);
    if !named {
        return put_last(buffer, tab, totals.lost);
    }
    let last = put_field(buffer, tab, b"\t", totals.held);
    put_last(buffer, last, totals.lost)
}
