// Headers of every form and size, at the ends of containers and of the numbers themselves.
use crate::report::header;
use boxes::framing::header_at;
use boxes::kinds::Container;
use numerals::place::Place;
use std::io;

// The largest number of 64 bits.
const LAST: u64 = u64::MAX;

fn read(rt: &impl Print, asked: &str, s: &[u8], at: u64, end: u64) -> io::Result<()> {
    let read = header_at(s, Container::File, Place(at), Place(end));
    header(rt, asked, read)
}

// A box of 8 bytes and one of 16 with a large size, in containers that end after so many bytes.
pub fn by_bytes_left(rt: &impl Print) -> io::Result<()> {
    short_by_bytes_left(rt, b"\x00\x00\x00\x08free\x00\x00\x00\x00\x00\x00\x00\x00")?;
    large_by_bytes_left(rt, b"\x00\x00\x00\x01free\x00\x00\x00\x00\x00\x00\x00\x10")
}

fn short_by_bytes_left(rt: &impl Print, s: &[u8]) -> io::Result<()> {
    read(rt, "short, 0 left", s, 0, 0)?;
    read(rt, "short, 7 left", s, 0, 7)?;
    read(rt, "short, 8 left", s, 0, 8)?;
    read(rt, "short, 15 left", s, 0, 15)?;
    read(rt, "short, 16 left", s, 0, 16)
}

fn large_by_bytes_left(rt: &impl Print, s: &[u8]) -> io::Result<()> {
    read(rt, "large, 0 left", s, 0, 0)?;
    read(rt, "large, 7 left", s, 0, 7)?;
    read(rt, "large, 8 left", s, 0, 8)?;
    read(rt, "large, 15 left", s, 0, 15)?;
    read(rt, "large, 16 left", s, 0, 16)
}

// Size fields of 32 bits.
fn sized(rt: &impl Print, asked: &str, size: u32, end: u64) -> io::Result<()> {
    let mut s = *b"\x00\x00\x00\x00free\x00\x00\x00\x00\x00\x00\x00\x00";
    s[..4].copy_from_slice(&size.to_be_bytes());
    read(rt, asked, &s, 0, end)
}

pub fn by_size(rt: &impl Print) -> io::Result<()> {
    sized(rt, "size 0, 7 left", 0, 7)?;
    sized(rt, "size 0", 0, 16)?;
    sized(rt, "size 1 and large size 0", 1, 16)?;
    sized(rt, "size 2", 2, 16)?;
    sized(rt, "size 7", 7, 16)?;
    sized(rt, "size 8", 8, 16)?;
    sized(rt, "size 15", 15, 16)?;
    sized(rt, "size 16", 16, 16)?;
    sized(rt, "size 17", 17, 16)?;
    sized(rt, "size 4294967295", 4294967295, 16)?;
    sized(rt, "size 4294967295 of 4294967294", 4294967295, 4294967294)?;
    sized(rt, "size 4294967295 of 4294967295", 4294967295, 4294967295)
}

// Large sizes, of 64 bits.
fn large(rt: &impl Print, asked: &str, size: u64, end: u64) -> io::Result<()> {
    let mut s = *b"\x00\x00\x00\x01free\x00\x00\x00\x00\x00\x00\x00\x00";
    s[8..].copy_from_slice(&size.to_be_bytes());
    read(rt, asked, &s, 0, end)
}

pub fn by_large_size(rt: &impl Print) -> io::Result<()> {
    large(rt, "large size 0", 0, 16)?;
    large(rt, "large size 1", 1, 16)?;
    large(rt, "large size 7", 7, 16)?;
    large(rt, "large size 8", 8, 16)?;
    large(rt, "large size 15", 15, 16)?;
    large(rt, "large size 16", 16, 16)?;
    large(rt, "large size 17", 17, 16)?;
    large(rt, "large size 4294967295", 4294967295, 16)?;
    large(rt, "large size 4294967296", 4294967296, 4294967296)?;
    let most = 18446744073709551615;
    large(rt, "large size 18446744073709551615", most, 16)?;
    large(rt, "large size 18446744073709551615 of as many", most, LAST)
}

// Places where the container's end comes first, and where numbers of 64 bits end. Bytes past the slice count as 0.
pub fn by_place(rt: &impl Print) -> io::Result<()> {
    by_place_in(
        rt,
        b"\x00\x00\x00\x00\x00\x00\x00\x00\x00\x00\x00\x01free\xff\xff\xff\xff\xff\xff\xff\xff",
    )
}

fn by_place_in(rt: &impl Print, s: &[u8]) -> io::Result<()> {
    read(rt, "place 9, end 8", s, 9, 8)?;
    read(rt, "place 8, largest size, largest end", s, 8, LAST)?;
    read(rt, "largest place and end", s, LAST, LAST)?;
    read(rt, "7 before the largest end", s, LAST - 7, LAST)?;
    read(rt, "8 before the largest end", s, LAST - 8, LAST)
}

// `uuid` boxes of that size. The bytes of their user type are past the slice.
fn vendor(rt: &impl Print, asked: &str, size: u8, end: u64) -> io::Result<()> {
    let s = [0, 0, 0, size, 117, 117, 105, 100];
    read(rt, asked, &s, 0, end)
}

fn large_vendor(rt: &impl Print, asked: &str, size: u8, end: u64) -> io::Result<()> {
    let s = [0, 0, 0, 1, 117, 117, 105, 100, 0, 0, 0, 0, 0, 0, 0, size];
    read(rt, asked, &s, 0, end)
}

// Sizes around the header with a user type, and containers that end inside it.
pub fn by_user_type(rt: &impl Print) -> io::Result<()> {
    vendor(rt, "uuid of 8", 8, 32)?;
    vendor(rt, "uuid of 23", 23, 32)?;
    vendor(rt, "uuid of 24", 24, 32)?;
    vendor(rt, "uuid of 25", 25, 32)?;
    vendor(rt, "uuid of 24, 23 left", 24, 23)?;
    vendor(rt, "uuid of 20, 20 left", 20, 20)?;
    large_vendor(rt, "large uuid of 16", 16, 40)?;
    large_vendor(rt, "large uuid of 31", 31, 40)?;
    large_vendor(rt, "large uuid of 32", 32, 40)?;
    large_vendor(rt, "large uuid of 32, 31 left", 32, 31)?;
    large_vendor(rt, "large uuid of 32, 15 left", 32, 15)
}
