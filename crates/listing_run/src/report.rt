// The lines of the output.
use partial::answers::{Asked, Lists};
use partial::position::Position;
use printing::lines::{bytes, kept_of, refused, rest, rows};
use printing::sums;
use refusals::Refusal;
use std::io;

// The longest part of a file that is printed byte by byte.
const SHORT: usize = 12;

// A refusal, or the counts and totals and the ranges of both lists; then how the rest of each list was left.
pub fn listed(
    rt: &impl Print,
    answer: Result<Lists, Refusal>,
    had: &[u64],
    missing: &[u64],
) -> io::Result<()> {
    match answer {
        Ok(l) => {
            println!(rt;
                "lists {} {} {} {}",
                l.had, l.missing, l.received_total, l.missing_total
            )?;
            rows(rt, "had", had, l.had, 2)?;
            rows(rt, "missing", missing, l.missing, 2)
        }
        Err(e) => {
            refused(rt, e.number())?;
            rest(rt, had, 0)?;
            rest(rt, missing, 0)
        }
    }
}

// How many numbers of a table were left as they were, how many it has, and their sum.
pub fn table(rt: &impl Print, word: &str, numbers: &[u64]) -> io::Result<()> {
    print!(rt; "{word} ")?;
    kept_of(rt, numbers, 0)?;
    let sum = sums::numbers(0, numbers) % sums::MODULUS;
    println!(rt; " sum {sum}")
}

// The end of a line: the sum of both tables.
pub fn tables(rt: &impl Print, segments: &[u64], chunks: &[u64]) -> io::Result<()> {
    let sum = sums::numbers(sums::numbers(0, segments), chunks) % sums::MODULUS;
    println!(rt; " tables {sum}")
}

// The front of a line: what is answered of a position.
pub fn asked(rt: &impl Print, p: Position, answer: Result<Asked, Refusal>) -> io::Result<()> {
    print!(rt; "ask {}", p.0)?;
    match answer {
        Ok(Asked::Served(n)) => print!(rt; " served {n}"),
        Ok(Asked::Missing(n)) => print!(rt; " missing {n}"),
        Ok(Asked::NotBelow) => print!(rt; " beyond"),
        Err(e) => {
            let n = e.number();
            print!(rt; " refused {n}")
        }
    }
}

// The front of a line: the length of the part that serves a position, and its bytes or their sum.
pub fn served(rt: &impl Print, p: Position, part: &[u8]) -> io::Result<()> {
    print!(rt; "serve {} {}", p.0, part.len())?;
    if part.len() <= SHORT {
        bytes(rt, part)
    } else {
        let sum = sums::bytes(part) % sums::MODULUS;
        print!(rt; " sum {sum}")
    }
}
