// The calls, with tables of as many numbers as a record says.
use crate::report;
use printing::lines::part;
use printing::marks::mark;
use reading::tables::read;
use reading::texts::{mime, source_mime, source_url, url};
use std::io;
use surltexts::calls::segment_texts;

// How many numbers are lent for the rows of each table, and the numbers of a source and of a segment.
#[derive(Clone, Copy)]
pub struct Wanted {
    pub segments: usize,
    pub chunks: usize,
    pub source: u64,
    pub segment: u64,
}

// Asks the six calls of a file. The tables are parts of the longest that a file can fill; a record that asks for longer
// ones has no answer.
pub fn answers(rt: &impl Print, file: &[u8], wanted: Wanted) -> io::Result<()> {
    let mut segment_space = [0; 512];
    let mut chunk_space = [0; 6144];
    if wanted.segments <= segment_space.len() && wanted.chunks <= chunk_space.len() {
        let segments = &mut segment_space[..wanted.segments];
        let chunks = &mut chunk_space[..wanted.chunks];
        tables(rt, file, wanted.source, segments, chunks)?;
        part(rt, "url", url(file))?;
        part(rt, "mime", mime(file))?;
        part(rt, "source_url", source_url(file, wanted.source))?;
        part(rt, "source_mime", source_mime(file, wanted.source))?;
        texts(rt, file, wanted.segment)?;
    }
    Ok(())
}

fn tables(
    rt: &impl Print,
    file: &[u8],
    source: u64,
    segments: &mut [u64],
    chunks: &mut [u64],
) -> io::Result<()> {
    mark(segments);
    mark(chunks);
    let answer = read(file, source, segments, chunks);
    report::answer(rt, answer, segments, chunks)
}

// The texts of a segment, of which some have more bytes or more lengths than are lent here.
fn texts(rt: &impl Print, file: &[u8], segment: u64) -> io::Result<()> {
    let mut bytes = [0; 64];
    let mut lengths = [0; 8];
    mark(&mut bytes);
    mark(&mut lengths);
    let answer = segment_texts(file, segment, &mut bytes, &mut lengths);
    report::texts(rt, answer, &bytes, &lengths)
}
