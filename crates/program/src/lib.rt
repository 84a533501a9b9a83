// What the programs share that print a text for the file on their standard input.
#![tactic(auto)]

ghost use Rattle.std.specs.Counts.{IsPrefixLen};
ghost use Rattle.std.specs.Prelude.{◌≡◌};
ghost use Rattle.partial.specs.Limits.{program_limit};

use partial::limits::PROGRAM_LIMIT;
pub use printing::input::read_full;
use refusals::Refusal;
use std::io;

// One byte more than a program takes, so that a longer input is seen.
pub const INPUT: usize = 65_537;

// How many bytes the buffer has that a program lends for its text.
pub const TEXT: usize = 65_536;

// How many bytes a program takes.
pub fn limit() -> u64
    ensures { result ≡ program_limit }
{
    PROGRAM_LIMIT
}

// Prints what a call writes for the file on standard input. The call takes the file, how many bytes a file may have, and
// the buffer for its text.
pub fn run<F>(rt: &(impl Input + Print), call: F) -> io::Result<()>
where
    F: FnOnce(&[u8], u64, &mut [u8]) -> Result<u64, Refusal>,
    requires { F.IsAlwaysCallable call }
{
    let mut input = [0; INPUT];
    let mut text = [0; TEXT];
    let n = read_full(rt, &mut input)?;
    let answer = call(&input[..n], limit(), &mut text);
    print(rt, answer.map_err(Refusal::number), &text)
}

// Prints the text that a call wrote, or the line of its refusal, of that number. No map is longer than the buffer
// (`NeverShort`, proved in crates/partial/proofs/Demands.antt), and no list of boxes of so short a file; if one were, it
// would be said.
pub fn print(rt: &impl Print, answer: Result<u64, u64>, text: &[u8]) -> io::Result<()> {
    match answer {
        Ok(n) => print_first(rt, text, n),
        Err(n) => refuse(rt, n),
    }
}

// So many bytes of a text, and never more than there are.
fn count(n: u64, text: &[u8]) -> usize
    ensures { IsPrefixLen result text.now }
{
    n.min(text.len() as u64) as usize
}

fn print_first(rt: &impl Print, text: &[u8], n: u64) -> io::Result<()> {
    let size = count(n, text);
    rt.write_all(&text[..size])
}

fn refuse(rt: &impl Print, n: u64) -> io::Result<()> {
    println!(rt; "refused\t{n}")
}
