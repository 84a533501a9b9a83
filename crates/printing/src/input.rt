// Standard input.
ghost use Rattle.std.specs.Io.{ReadsAtMost};

use std::io;
use std::io::Read;

// Reads until the space is full or the input ends, and answers how many bytes it put at the start of the space.
pub fn read_full(rt: &impl Input, space: &mut [u8]) -> io::Result<usize>
    ensures { ReadsAtMost result space.new }
{
    fill(&mut rt.reader(), space)
}

// The same from any reader. `read_exact` would not tell how many bytes there were before the end.
pub fn fill<R: Read>(reader: &mut R, space: &mut [u8]) -> io::Result<usize>
    ensures { ReadsAtMost result space.new }
{
    let mut done = 0;
    while done < space.len() {
        let n = reader.read(&mut space[done..])?;
        if n == 0 {
            break;
        }
        done += n;
    }
    Ok(done)
}
