// The calls of a run. A begin is four numbers of two bytes, 0, the brand (0 is `paff`, 1 `pmff`) and the lengths of the
// URL and of the MIME text, and the two texts. An append is 1, whether its good chunks go outside (1 where they do),
// how many numbers of its chunk list are given, and the length of its data; then eight numbers of eight bytes, the
// stated length of the file, source offset, repair time, flags, the length of the list, how many text lengths are given,
// the length of that list, and how many text bytes there are; then the numbers of the chunk list, the data, the text
// lengths and the text bytes.
use crate::{list, report};
use additions::header::SegmentHeader;
use partial::brand::Brand;
use partial::position::Position;
use printing::input::fill;
use printing::records::{eight, pair};
use std::io;
use std::io::Read;
use writing::append::append;
use writing::begin::begin;

// The longest list of text lengths, and the most text bytes.
const MOST_LENGTHS: usize = 1_300;

const MOST_TEXTS: usize = 65_536;

// Makes so many calls on the buffer, in which a file of some length stands. The length of the file that they leave.
pub fn all<R: Read>(
    rt: &impl Print,
    input: &mut R,
    buffer: &mut [u8],
    list: &mut [u64],
    bytes: &mut [u8],
    count: usize,
    file: u64,
) -> io::Result<u64> {
    let mut length = file;
    for _ in 0..count {
        length = call(rt, input, buffer, list, bytes, length)?;
    }
    Ok(length)
}

// Makes the next call, and prints its answer. The length of the file after it. Where the input ends before the front of
// the call, the bytes that are missing are 0.
fn call<R: Read>(
    rt: &impl Print,
    input: &mut R,
    buffer: &mut [u8],
    list: &mut [u64],
    bytes: &mut [u8],
    length: u64,
) -> io::Result<u64> {
    let mut front = [0; 8];
    fill(input, &mut front)?;
    let chosen = pair(front[2], front[3]) != 0;
    let first = pair(front[4], front[5]);
    let second = pair(front[6], front[7]);
    if pair(front[0], front[1]) == 0 {
        begins(rt, input, buffer, bytes, chosen, first, second, length)
    } else {
        appends(
            rt, input, buffer, list, bytes, chosen, first, second, length,
        )
    }
}

// A call for which there is no room, here and below, is not made.
fn begins<R: Read>(
    rt: &impl Print,
    input: &mut R,
    buffer: &mut [u8],
    bytes: &mut [u8],
    mixed: bool,
    url: usize,
    mime: usize,
    length: u64,
) -> io::Result<u64> {
    if url > bytes.len() || mime > bytes.len() - url {
        return Ok(length);
    }
    let end = url + mime;
    fill(input, &mut bytes[..end])?;
    let brand = if mixed { Brand::Pmff } else { Brand::Paff };
    let texts = &bytes[..end];
    let (url, mime) = texts.split_at(url);
    let answer = begin(buffer, brand, url, mime);
    report::written(rt, "begin", buffer, 0, answer)?;
    Ok(answer.unwrap_or(length))
}

fn appends<R: Read>(
    rt: &impl Print,
    input: &mut R,
    buffer: &mut [u8],
    list: &mut [u64],
    bytes: &mut [u8],
    outside: bool,
    given: usize,
    size: usize,
    length: u64,
) -> io::Result<u64> {
    let stated = eight(input)?;
    let header = header(input)?;
    let count = eight(input)? as usize;
    let lengths_given = eight(input)? as usize;
    let length_count = eight(input)? as usize;
    let text_size = eight(input)? as usize;
    let mut lengths = [0; MOST_LENGTHS];
    let mut texts = [0; MOST_TEXTS];
    if count > list.len()
        || size > bytes.len()
        || length_count > lengths.len()
        || text_size > texts.len()
    {
        return Ok(length);
    }
    let list = &mut list[..count];
    let data = &mut bytes[..size];
    let lengths = &mut lengths[..length_count];
    let texts = &mut texts[..text_size];
    list::fill(input, list, given)?;
    fill(input, data)?;
    list::fill(input, lengths, lengths_given)?;
    fill(input, texts)?;
    let answer = append(buffer, stated, header, outside, list, data, texts, lengths);
    report::written(rt, "append", buffer, stated, answer)?;
    Ok(answer.unwrap_or(length))
}

// A header as it is given: flags that the writer does not set are left in it.
fn header<R: Read>(input: &mut R) -> io::Result<SegmentHeader> {
    let offset = Position(eight(input)?);
    let repair = eight(input)?;
    let flags = (eight(input)? % 4294967296) as u32;
    Ok(SegmentHeader {
        offset,
        repair,
        flags,
    })
}
