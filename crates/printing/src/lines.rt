// The parts of a line of output.
ghost use Rattle.std.specs.Prelude.{◌*◌, ◌<◌, ◌≤◌, length, IfOk};

use crate::marks::{Marked, kept};
use std::io;

// The line of a name.
pub fn title(rt: &impl Print, name: &[u8]) -> io::Result<()> {
    rt.write_all(b"= ")?;
    rt.write_all(name)?;
    println!(rt)
}

// The line of a refusal, by its number.
pub fn refused(rt: &impl Print, n: u64) -> io::Result<()> {
    println!(rt; "refused {n}")
}

// Whether the size of the source is known.
pub fn known(closed: bool) -> &'static str {
    if closed { "closed" } else { "open" }
}

// How many places of something lent, from one on, still hold their mark, and how many there are.
pub fn kept_of<T: Marked>(rt: &impl Print, lent: &[T], from: usize) -> io::Result<()> {
    let held = kept(lent, from);
    let all = lent.len().saturating_sub(from);
    print!(rt; "kept {held} of {all}")
}

// The line of what was left of something lent, from a place on.
pub fn rest<T: Marked>(rt: &impl Print, lent: &[T], from: usize) -> io::Result<()> {
    kept_of(rt, lent, from)?;
    println!(rt)
}

// Bytes of a file, in two hexadecimal digits each.
pub fn bytes(rt: &impl Print, part: &[u8]) -> io::Result<()> {
    for b in part {
        print!(rt; " {b:02x}")?;
    }
    Ok(())
}

// The line of a part of the file, byte by byte.
pub fn part(rt: &impl Print, word: &str, part: &[u8]) -> io::Result<()> {
    print!(rt; "{word}")?;
    bytes(rt, part)?;
    println!(rt)
}

// The line of a row of numbers.
pub fn row(rt: &impl Print, word: &str, numbers: &[u64]) -> io::Result<()> {
    print!(rt; "{word}")?;
    for n in numbers {
        print!(rt; " {n}")?;
    }
    println!(rt)
}

// The rows of so many numbers that stand in a table, as many as are claimed and no more than it holds, and the line of
// its rest.
pub fn rows(
    rt: &impl Print,
    word: &str,
    table: &[u64],
    claimed: u64,
    width: usize,
) -> io::Result<()>
    requires { 0 < width }
{
    let mut left = table;
    for _ in 0..claimed {
        if left.len() < width {
            break;
        }
        let (first, others) = left.split_at(width);
        row(rt, word, first)?;
        left = others;
    }
    rest(rt, table, table.len() - left.len())
}
