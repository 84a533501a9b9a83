// The lines of the output: what was asked, a tab, and the answer.
use boxes::framing::Framed;
use boxes::kinds::{Kind, RULE_COUNT};
use refusals::Refusal;
use std::fmt::Display;
use std::{fmt, io};
use tallying::tally::Tally;

// How many rows of the table of kinds a line shows.
const ROWS_SHOWN: usize = 8;

// A box as it is shown: its type, its place, the places of its user type and of its body, and its end.
#[derive(Drop)]
struct Shown(Framed);

impl Display for Shown {
    fn fmt<W: fmt::Write>(&self, f: &mut fmt::Formatter<W>) -> fmt::Result {
        let b = self.0;
        write!(
            f,
            "{:08x} {} {} {} {}",
            b.kind.code, b.at.0, b.user.0, b.body.0, b.end.0
        )
    }
}

// An answer, or the number of a refusal.
fn told<D: Display + Drop>(
    rt: &impl Print,
    asked: &str,
    answer: Result<D, Refusal>,
) -> io::Result<()> {
    match answer {
        Ok(answer) => println!(rt; "{asked}\t{answer}"),
        Err(e) => {
            let n = e.number();
            println!(rt; "{asked}\trefused {n}")
        }
    }
}

pub fn header(rt: &impl Print, asked: &str, b: Result<Framed, Refusal>) -> io::Result<()> {
    told(rt, asked, b.map(Shown))
}

// How many boxes there are, or the first fault.
pub fn boxes(rt: &impl Print, asked: &str, t: Result<Tally, Refusal>) -> io::Result<()> {
    told(rt, asked, t.map(|t| t.boxes))
}

// How many boxes there are of a kind, or the first fault.
pub fn of_kind(
    rt: &impl Print,
    asked: &str,
    t: Result<Tally, Refusal>,
    kind: Kind,
) -> io::Result<()> {
    told(rt, asked, t.map(|t| t.of(kind)))
}

// All that a walk told: the fault, the number of boxes, and the counts in the table's order.
pub fn whole(rt: &impl Print, asked: &str, t: Result<Tally, Refusal>) -> io::Result<()> {
    match t {
        Ok(t) => {
            let counts = t.counts;
            row(rt, asked, 0, t.boxes, &counts)
        }
        Err(e) => row(rt, asked, e.number(), 0, &[0; RULE_COUNT]),
    }
}

fn row(rt: &impl Print, asked: &str, fault: u64, boxes: u64, counts: &[u64]) -> io::Result<()> {
    print!(rt; "{asked}\t{fault} {boxes}")?;
    for n in counts.iter().take(ROWS_SHOWN) {
        print!(rt; " {n}")?;
    }
    println!(rt)
}

// Whether something holds, or why it cannot be said.
pub fn rule(rt: &impl Print, asked: &str, kept: Result<bool, Refusal>) -> io::Result<()> {
    told(rt, asked, kept.map(word))
}

fn word(yes: bool) -> &'static str {
    if yes { "yes" } else { "no" }
}

// Whether bytes were written, and how the buffer was left.
pub fn written(rt: &impl Print, asked: &str, done: bool, buf: &[u8]) -> io::Result<()> {
    let done = word(done);
    print!(rt; "{asked}\t{done} ")?;
    for b in buf {
        print!(rt; "{b:02x}")?;
    }
    println!(rt)
}
