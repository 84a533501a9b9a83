// The records of an input. Six numbers of two bytes, most significant first: the length of the name, the numbers lent
// for segment rows and for chunk rows, the length of the file, the number of a source and that of a segment. Then the
// name and the file.
use crate::lent;
use crate::lent::Wanted;
use printing::input::fill;
use printing::records;
use std::io;
use std::io::Read;

// The most bytes of a file; a record of more has no answer.
const LARGEST_FILE: usize = 65_536;

// Takes the next record, and prints its name and the answers. Whether there was one.
pub fn record<R: Read>(rt: &impl Print, input: &mut R) -> io::Result<bool> {
    let numbers: Option<[usize; 6]> = records::numbers(input)?;
    let Some(numbers) = numbers else {
        return Ok(false);
    };
    let [name, segments, chunks, file, source, segment] = numbers;
    let wanted = Wanted {
        segments,
        chunks,
        source: source as u64,
        segment: segment as u64,
    };
    records::name(rt, input, name)?;
    answers(rt, input, file, wanted)?;
    Ok(true)
}

fn answers<R: Read>(
    rt: &impl Print,
    input: &mut R,
    length: usize,
    wanted: Wanted,
) -> io::Result<()> {
    let mut space = [0; LARGEST_FILE];
    if length <= space.len() {
        let file = &mut space[..length];
        fill(input, file)?;
        lent::answers(rt, file, wanted)?;
    }
    Ok(())
}
