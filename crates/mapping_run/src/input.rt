// The records of an input. Three numbers, most significant byte first: the length of the name in two bytes, then the
// length of the file and that of the buffer in three bytes each. Then the name and the file.
use crate::lent;
use printing::input::fill;
use printing::records;
use std::io;
use std::io::Read;

// One byte more than the longest file that has a map.
const LARGEST_FILE: usize = 65_537;

// The three numbers of a record.
#[derive(Clone, Copy)]
struct Head {
    name: usize,
    file: usize,
    buffer: usize,
}

// Takes the next record, and prints its name and the answer. Whether there was one.
pub fn record<R: Read>(rt: &impl Print, input: &mut R) -> io::Result<bool> {
    let Some(head) = next(input)? else {
        return Ok(false);
    };
    records::name(rt, input, head.name)?;
    answer(rt, input, head.file, head.buffer)?;
    Ok(true)
}

fn next<R: Read>(input: &mut R) -> io::Result<Option<Head>> {
    let Some(name) = records::number(input, 2)? else {
        return Ok(None);
    };
    let Some(file) = records::number(input, 3)? else {
        return Ok(None);
    };
    let Some(buffer) = records::number(input, 3)? else {
        return Ok(None);
    };
    Ok(Some(Head {
        name: name as usize,
        file: file as usize,
        buffer: buffer as usize,
    }))
}

fn answer<R: Read>(rt: &impl Print, input: &mut R, length: usize, buffer: usize) -> io::Result<()> {
    let mut space = [0; LARGEST_FILE];
    if length <= space.len() {
        let file = &mut space[..length];
        fill(input, file)?;
        lent::mapped(rt, file, buffer)?;
    }
    Ok(())
}
