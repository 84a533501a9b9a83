// The records of an input. Eight numbers of two bytes, most significant first: the length of the name, the length of the
// file, the numbers lent for segment rows, for chunk rows, for the list of what is had and for that of what is missing,
// how many positions are asked, and the number of a source. Then the name, the file, and the positions, eight bytes
// each.
use crate::lent;
use crate::lent::Rooms;
use partial::position::Position;
use printing::input::fill;
use printing::records;
use std::io;
use std::io::Read;

// The most bytes of a file; a record of more has no answer.
const LARGEST_FILE: usize = 65_536;

// Takes the next record, and prints its name and the answers. Whether there was one.
pub fn record<R: Read>(rt: &impl Print, input: &mut R) -> io::Result<bool> {
    let numbers: Option<[usize; 8]> = records::numbers(input)?;
    let Some(numbers) = numbers else {
        return Ok(false);
    };
    let [
        name,
        file,
        segments,
        chunks,
        had,
        missing,
        positions,
        source,
    ] = numbers;
    let rooms = Rooms {
        segments,
        chunks,
        had,
        missing,
    };
    records::name(rt, input, name)?;
    answers(rt, input, file, source as u64, rooms, positions)?;
    Ok(true)
}

// Lists the file, and asks of so many positions of the source and has them served.
fn answers<R: Read>(
    rt: &impl Print,
    input: &mut R,
    length: usize,
    source: u64,
    rooms: Rooms,
    positions: usize,
) -> io::Result<()> {
    let mut space = [0; LARGEST_FILE];
    if length <= space.len() {
        let file = &mut space[..length];
        fill(input, file)?;
        lent::listed(rt, file, source, rooms)?;
        for _ in 0..positions {
            let p = Position(records::eight(input)?);
            lent::found(rt, file, source, rooms, p)?;
        }
    }
    Ok(())
}
