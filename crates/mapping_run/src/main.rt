// Writes both maps of every file of a corpus, and prints every answer. `tests/maps.py` makes `stdin`, the corpus, and
// `stdout`, the answers of the model.
#![tactic(auto)]

mod input;
mod lent;

use std::io;

// More records than there are: a proved loop has to end, and nothing says that the input does.
const MOST_RECORDS: u64 = 65536;

fn main(rt: HostRuntime) -> io::Result<()> {
    let mut input = rt.reader();
    for _ in 0..MOST_RECORDS {
        if !input::record(&rt, &mut input)? {
            break;
        }
    }
    Ok(())
}
