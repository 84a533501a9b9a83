// The lines of the output.
use partial::answers::Tables;
use printing::lines::{bytes, known, refused};
use printing::sums;
use refusals::Refusal;
use std::io;

// The longest addition that is printed byte by byte.
const SHORT: u64 = 96;

// The answer of a call, the sum of the whole buffer, and the new bytes where they are few.
pub fn written(
    rt: &impl Print,
    word: &str,
    buffer: &[u8],
    from: u64,
    answer: Result<u64, Refusal>,
) -> io::Result<()> {
    let sum = sums::bytes(buffer) % sums::MODULUS;
    match answer {
        Ok(n) => {
            print!(rt; "{word} length {n} sum {sum}")?;
            new_bytes(rt, buffer, from, n)?;
        }
        Err(e) => {
            let n = e.number();
            print!(rt; "{word} refused {n} sum {sum}")?;
        }
    }
    println!(rt)
}

fn new_bytes(rt: &impl Print, buffer: &[u8], from: u64, end: u64) -> io::Result<()> {
    if from <= end && end <= buffer.len() as u64 && end - from <= SHORT {
        print!(rt; " bytes")?;
        bytes(rt, &buffer[from as usize..end as usize])?;
    }
    Ok(())
}

// What is read of the file after the calls: a refusal, or the counts, the described length of a source, and whether it
// is its size.
pub fn read(rt: &impl Print, answer: Result<Tables, Refusal>) -> io::Result<()> {
    match answer {
        Ok(t) => {
            let end = known(t.closed);
            println!(rt;
                "read {} {} {} {} {end}",
                t.segments, t.chunks, t.sources, t.described.0
            )
        }
        Err(e) => refused(rt, e.number()),
    }
}
