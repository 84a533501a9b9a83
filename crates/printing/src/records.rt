// The parts of a record of an input: numbers, most significant byte first, and its name.
use crate::input::fill;
use crate::lines;
use std::io;
use std::io::Read;

// The most bytes of a name; a longer one is not taken.
const LONGEST_NAME: usize = 4096;

// Takes a number of so many bytes, of eight at the most, if the input has them.
pub fn number<R: Read>(input: &mut R, width: usize) -> io::Result<Option<u64>> {
    let taken = width.min(8);
    let mut bytes = [0; 8];
    if fill(input, &mut bytes[8 - taken..])? < taken {
        return Ok(None);
    }
    Ok(Some(u64::from_be_bytes(bytes)))
}

// Takes numbers of two bytes each, if the input has them all.
pub fn numbers<R: Read, const N: usize>(input: &mut R) -> io::Result<Option<[usize; N]>> {
    let mut numbers = [0; N];
    for place in numbers.iter_mut() {
        match number(input, 2)? {
            Some(n) => *place = n as usize,
            None => return Ok(None),
        }
    }
    Ok(Some(numbers))
}

// The number in two bytes.
pub fn pair(high: u8, low: u8) -> usize {
    usize::from(u16::from_be_bytes([high, low]))
}

// Takes a number of eight bytes. Where the input ends before them, those that it has stand in front, and the others are
// 0.
pub fn eight<R: Read>(input: &mut R) -> io::Result<u64> {
    let mut bytes = [0; 8];
    fill(input, &mut bytes)?;
    Ok(u64::from_be_bytes(bytes))
}

// Takes a name of so many bytes, and prints it.
pub fn name<R: Read>(rt: &impl Print, input: &mut R, length: usize) -> io::Result<()> {
    let mut space = [0; LONGEST_NAME];
    if length <= space.len() {
        let name = &mut space[..length];
        fill(input, name)?;
        lines::title(rt, name)?;
    }
    Ok(())
}
