// The records of an input, a run each. Four numbers of two bytes, most significant first: the length of the name, the
// bytes lent as the buffer, the length of the file that stands in it at first, and how many calls are made. Then the
// name, the file and the calls.
use crate::{calls, report};
use printing::input::fill;
use printing::marks::mark;
use printing::records;
use reading::tables::read;
use std::io;
use std::io::Read;

// Takes the next record, and prints its name and the answers. Whether there was one.
pub fn record<R: Read>(
    rt: &impl Print,
    input: &mut R,
    buffer: &mut [u8],
    list: &mut [u64],
    bytes: &mut [u8],
) -> io::Result<bool> {
    let numbers: Option<[usize; 4]> = records::numbers(input)?;
    let Some(numbers) = numbers else {
        return Ok(false);
    };
    let [name, lent, file, calls] = numbers;
    records::name(rt, input, name)?;
    if lent <= buffer.len() {
        run(rt, input, &mut buffer[..lent], list, bytes, file, calls)?;
    }
    Ok(true)
}

// Marks the buffer, puts the file into it, makes the calls, and reads the file that they leave, with the first source
// and with the second.
fn run<R: Read>(
    rt: &impl Print,
    input: &mut R,
    buffer: &mut [u8],
    list: &mut [u64],
    bytes: &mut [u8],
    file: usize,
    count: usize,
) -> io::Result<()> {
    mark(buffer);
    if file <= buffer.len() {
        fill(input, &mut buffer[..file])?;
        let length = calls::all(rt, input, buffer, list, bytes, count, file as u64)?;
        if length <= buffer.len() as u64 {
            read_back(rt, &buffer[..length as usize], 0)?;
            read_back(rt, &buffer[..length as usize], 1)?;
        }
    }
    Ok(())
}

// Reads a file into tables that are long enough for any, and tells of that source.
fn read_back(rt: &impl Print, file: &[u8], source: u64) -> io::Result<()> {
    let mut segments = [0u64; 512];
    let mut chunks = [0u64; 6144];
    report::read(rt, read(file, source, &mut segments, &mut chunks))
}
