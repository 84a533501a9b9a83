// A list of an append, of chunks or of text lengths: the numbers given, and the same again and again up to its length, so
// that a list of many pairs is a short record.
use printing::records::eight;
use std::io;
use std::io::Read;

pub fn fill<R: Read>(input: &mut R, list: &mut [u64], given: usize) -> io::Result<()> {
    if given <= list.len() {
        for n in &mut list[..given] {
            *n = eight(input)?;
        }
        repeat(list, given);
    }
    Ok(())
}

// Fills the list from a number on with those before it.
fn repeat(list: &mut [u64], given: usize) {
    for i in given..list.len() {
        list[i] = list[i - given];
    }
}
