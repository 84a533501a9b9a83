// The calls, each with a buffer of as many bytes as a record says.
ghost use Rattle.std.specs.Prelude.{ℕ, ◌≤◌, ◌≡◌, length, Ok};

use mapping::call::{map, missmap};
use partial::limits::PROGRAM_LIMIT;
use printing::lines::{refused, rest};
use printing::marks::mark;
use refusals::Refusal;
use std::io;

// More bytes than the longest file has.
const LARGEST_BUFFER: usize = 65_600;

// Writes both maps of a file. The buffer is a part of the largest; a record that asks for a larger one has no answer.
pub fn mapped(rt: &impl Print, file: &[u8], length: usize) -> io::Result<()> {
    let mut space = [0; LARGEST_BUFFER];
    if length <= space.len() {
        mapped_in(rt, file, &mut space[..length])?;
    }
    Ok(())
}

fn mapped_in(rt: &impl Print, file: &[u8], buffer: &mut [u8]) -> io::Result<()> {
    mark(buffer);
    let named = map(file, PROGRAM_LIMIT, buffer);
    written(rt, named, buffer)?;
    mark(buffer);
    let missed = missmap(file, PROGRAM_LIMIT, buffer);
    written(rt, missed, buffer)
}

// What a call wrote, and what it left of the buffer.
fn written(rt: &impl Print, answer: Result<u64, Refusal>, buffer: &[u8]) -> io::Result<()>
    requires { (n : ℕ) → answer ≡ Ok n → n ≤ length buffer.now }
{
    match answer {
        Ok(n) => {
            println!(rt; "length {n}")?;
            rt.write_all(&buffer[..n as usize])?;
            rest(rt, buffer, n as usize)
        }
        Err(e) => {
            refused(rt, e.number())?;
            rest(rt, buffer, 0)
        }
    }
}
