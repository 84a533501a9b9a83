// Headers, numbers and offsets written where there is room and where there is not, and of values that fit and do not.
use crate::report::written;
use boxes::framing::put_header;
use boxes::kinds::Kind;
use numerals::numbers::{Offset, put_number, put_offset};
use numerals::place::Place;
use std::io;

const FREE: Kind = Kind { code: 0x6672_6565 };

// The largest number of 64 bits.
const LAST: u64 = u64::MAX;

fn put(rt: &impl Print, asked: &str, at: u64, n: u64) -> io::Result<()> {
    let mut buf = [170u8; 12];
    let done = put_header(&mut buf, Place(at), FREE, n);
    written(rt, asked, done, &buf)
}

pub fn by_room(rt: &impl Print) -> io::Result<()> {
    put(rt, "at 0 of 12", 0, 0)?;
    put(rt, "at 2 of 12", 2, 0)?;
    put(rt, "at 4 of 12", 4, 0)?;
    put(rt, "at 5 of 12", 5, 0)?;
    put(rt, "at the largest place", LAST, 0)
}

pub fn by_size(rt: &impl Print) -> io::Result<()> {
    put(rt, "a body of 8", 0, 8)?;
    put(rt, "a body of 4294967287", 0, 4294967287)?;
    put(rt, "a body of 4294967288", 0, 4294967288)?;
    put(rt, "a body of 18446744073709551615", 0, LAST)
}

fn number(rt: &impl Print, asked: &str, at: u64, width: usize, n: u64) -> io::Result<()> {
    let mut buf = [170u8; 12];
    let done = put_number(&mut buf, Place(at), width, n);
    written(rt, asked, done, &buf)
}

pub fn by_number(rt: &impl Print) -> io::Result<()> {
    number(rt, "0 in no byte", 0, 0, 0)?;
    number(rt, "1 in no byte", 0, 0, 1)?;
    number(rt, "255 in 1 byte", 0, 1, 255)?;
    number(rt, "256 in 1 byte", 0, 1, 256)?;
    number(rt, "256 in 2 bytes", 0, 2, 256)?;
    number(rt, "256 in 2 bytes at 10 of 12", 10, 2, 256)?;
    number(rt, "256 in 2 bytes at 11 of 12", 11, 2, 256)?;
    number(rt, "the largest in 7 bytes", 0, 7, LAST)?;
    number(rt, "the largest in 8 bytes", 0, 8, LAST)?;
    number(rt, "1 in 9 bytes", 0, 9, 1)
}

fn offset(rt: &impl Print, asked: &str, width: usize, z: Offset) -> io::Result<()> {
    let mut buf = [170u8; 12];
    let done = put_offset(&mut buf, Place(0), width, z);
    written(rt, asked, done, &buf)
}

pub fn by_offset(rt: &impl Print) -> io::Result<()> {
    offset(rt, "none back in no byte", 0, Offset::Back(0))?;
    offset(rt, "1 back in no byte", 0, Offset::Back(1))?;
    offset(rt, "none back in 1 byte", 1, Offset::Back(0))?;
    offset(rt, "127 ahead in 1 byte", 1, Offset::Ahead(127))?;
    offset(rt, "128 ahead in 1 byte", 1, Offset::Ahead(128))?;
    offset(rt, "128 back in 1 byte", 1, Offset::Back(128))?;
    offset(rt, "129 back in 1 byte", 1, Offset::Back(129))?;
    offset(rt, "129 back in 2 bytes", 2, Offset::Back(129))?;
    offset(
        rt,
        "half of all ahead in 8 bytes",
        8,
        Offset::Ahead(0x8000_0000_0000_0000),
    )?;
    offset(
        rt,
        "half of all back in 8 bytes",
        8,
        Offset::Back(0x8000_0000_0000_0000),
    )
}
