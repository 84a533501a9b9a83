// The lines of the output.
ghost use Rattle.std.specs.Prelude.{◌≤◌};

use partial::answers::Tables;
use printing::lines::{known, part, refused, rest, row, rows};
use refusals::Refusal;
use std::io;
use surltexts::answers::Texts;

// A refusal, or the counts, the described length and the rows; then how the rest of each table was left.
pub fn answer(
    rt: &impl Print,
    answer: Result<Tables, Refusal>,
    segments: &[u64],
    chunks: &[u64],
) -> io::Result<()> {
    match answer {
        Ok(t) => {
            let end = known(t.closed);
            println!(rt;
                "read {} {} {} {} {end}",
                t.segments, t.chunks, t.sources, t.described.0
            )?;
            rows(rt, "segment", segments, t.segments, 8)?;
            rows(rt, "chunk", chunks, t.chunks, 6)
        }
        Err(e) => {
            refused(rt, e.number())?;
            rest(rt, segments, 0)?;
            rest(rt, chunks, 0)
        }
    }
}

// A refusal, or how many bytes and lengths there are, and these; then how the rest of each memory was left.
pub fn texts(
    rt: &impl Print,
    answer: Result<Texts, Refusal>,
    bytes: &[u8],
    lengths: &[u64],
) -> io::Result<()> {
    print!(rt; "texts ")?;
    match answer {
        Ok(t) => {
            println!(rt; "{} {}", t.bytes, t.lengths)?;
            let end = front(t.bytes, bytes.len());
            let last = front(t.lengths, lengths.len());
            part(rt, "bytes", &bytes[..end])?;
            row(rt, "lengths", &lengths[..last])?;
            rest(rt, bytes, end)?;
            rest(rt, lengths, last)
        }
        Err(e) => {
            refused(rt, e.number())?;
            rest(rt, bytes, 0)?;
            rest(rt, lengths, 0)
        }
    }
}

// As many as are claimed, and no more than there are.
fn front(claimed: u64, length: usize) -> usize
    ensures { result ≤ length }
{
    length.min(claimed as usize)
}
