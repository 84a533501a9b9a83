// Begins files and appends to them, call after call in one lent buffer, and prints every answer and what became of the
// buffer. `tests/writes.py` makes `stdin`, the runs, and `stdout`, the answers of the model.
#![tactic(auto)]

mod calls;
mod input;
mod list;
mod report;

use std::io;
use std::io::Read;

// More records than there are: a proved loop has to end, and nothing says that the input does.
const MOST_RECORDS: u64 = 65536;

// What the runs are lent is made once: the buffer, the chunk list and the bytes that a call is given. The list has room
// for more pairs than a number of two bytes can count.
fn main(rt: HostRuntime) -> io::Result<()> {
    let mut buffer = [0u8; 65536];
    let mut bytes = [0u8; 65536];
    let mut list = [0u64; 131074];
    runs(&rt, &mut rt.reader(), &mut buffer, &mut list, &mut bytes)
}

fn runs<R: Read>(
    rt: &impl Print,
    input: &mut R,
    buffer: &mut [u8],
    list: &mut [u64],
    bytes: &mut [u8],
) -> io::Result<()> {
    for _ in 0..MOST_RECORDS {
        if !input::record(rt, input, buffer, list, bytes)? {
            break;
        }
    }
    Ok(())
}
