// The calls, with tables and lists of as many numbers as a record says.
use crate::report;
use listing::calls::list;
use partial::position::Position;
use printing::marks::mark;
use serving::calls::{ask, serve};
use std::io;

// The most numbers of the rows of each table that a file can fill, and of the ranges of a list.
const MOST_SEGMENTS: usize = 512;

const MOST_CHUNKS: usize = 6144;

const MOST_RANGES: usize = 2050;

// How many numbers are lent for the rows of each table and for the ranges of each list. A record that asks for more
// than a file can fill has no answer.
#[derive(Clone, Copy)]
pub struct Rooms {
    pub segments: usize,
    pub chunks: usize,
    pub had: usize,
    pub missing: usize,
}

// Lists a source of a file.
pub fn listed(rt: &impl Print, file: &[u8], source: u64, rooms: Rooms) -> io::Result<()> {
    let mut segment_space = [0; MOST_SEGMENTS];
    let mut chunk_space = [0; MOST_CHUNKS];
    let mut had_space = [0; MOST_RANGES];
    let mut missing_space = [0; MOST_RANGES];
    if rooms.segments <= MOST_SEGMENTS
        && rooms.chunks <= MOST_CHUNKS
        && rooms.had <= MOST_RANGES
        && rooms.missing <= MOST_RANGES
    {
        let segments = &mut segment_space[..rooms.segments];
        let chunks = &mut chunk_space[..rooms.chunks];
        let had = &mut had_space[..rooms.had];
        let missing = &mut missing_space[..rooms.missing];
        mark(segments);
        mark(chunks);
        mark(had);
        mark(missing);
        let answer = list(file, source, segments, chunks, had, missing);
        report::listed(rt, answer, had, missing)?;
        report::table(rt, "segments", segments)?;
        report::table(rt, "chunks", chunks)?;
    }
    Ok(())
}

// Asks of a position, and has it served.
pub fn found(
    rt: &impl Print,
    file: &[u8],
    source: u64,
    rooms: Rooms,
    p: Position,
) -> io::Result<()> {
    let mut segment_space = [0; MOST_SEGMENTS];
    let mut chunk_space = [0; MOST_CHUNKS];
    if rooms.segments <= MOST_SEGMENTS && rooms.chunks <= MOST_CHUNKS {
        let segments = &mut segment_space[..rooms.segments];
        let chunks = &mut chunk_space[..rooms.chunks];
        asked(rt, file, source, segments, chunks, p)?;
        served(rt, file, source, segments, chunks, p)?;
    }
    Ok(())
}

fn asked(
    rt: &impl Print,
    file: &[u8],
    source: u64,
    segments: &mut [u64],
    chunks: &mut [u64],
    p: Position,
) -> io::Result<()> {
    mark(segments);
    mark(chunks);
    let answer = ask(file, source, segments, chunks, p);
    report::asked(rt, p, answer)?;
    report::tables(rt, segments, chunks)
}

fn served(
    rt: &impl Print,
    file: &[u8],
    source: u64,
    segments: &mut [u64],
    chunks: &mut [u64],
    p: Position,
) -> io::Result<()> {
    mark(segments);
    mark(chunks);
    let part = serve(file, source, segments, chunks, p);
    report::served(rt, p, part)?;
    report::tables(rt, segments, chunks)
}
