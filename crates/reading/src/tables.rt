// Reading into the two lent tables.
ghost use Rattle.std.specs.Prelude.{List, ◌≡◌};
ghost use Rattle.boxes.specs.Answer.{given};
ghost use Rattle.partial.specs.Limits.{source_limit};
ghost use Rattle.partial.specs.Segments.{Segment};
ghost use Rattle.partial.specs.Tables.{tabled};
ghost use Rattle.sources.specs.Held.{SourcesHeld};
ghost use Rattle.reading.specs.Tables.{Reads};

use crate::judging::judge;
use ends::table::sizes_at;
use gathering::pass::pass;
use gathering::tables::SourceTables;
use partial::answers::Tables;
use partial::rows::{CHUNK_ROW, SEGMENT_ROW};
use refusals::Refusal;

// Reads a file: its segments and its chunks in rows, how many there are, of how many sources, the described length of
// one, and whether the size of that is known. After a refusal both tables are as they were. What the ends of the
// segments say, their sources and where the lists of these stand go into tables of the caller's own.
pub fn read_source(
    file: &[u8],
    source: u64,
    segments: &mut [u64],
    chunks: &mut [u64],
    tables: &mut SourceTables,
) -> Result<Tables, Refusal>
    ensures { Reads file.now source segments.old segments.new chunks.old chunks.new result
        × ((ss : List Segment) → tabled source_limit file.now segments.old chunks.old ≡ given ss → SourcesHeld tables.new.sources ss) }
{
    let judged = judge(file, tables)?;
    let gathered = judged.gathered;
    let said = sizes_at(&tables.sizes, source);
    if segments.len() as u64 / SEGMENT_ROW < gathered.segments {
        return Err(Refusal::TableTooShort);
    }
    if chunks.len() as u64 / CHUNK_ROW < gathered.chunks {
        return Err(Refusal::TableTooShort);
    }
    let head = judged.head;
    pass(file, head.mixed, head.list, false, segments, chunks, tables)?;
    Ok(Tables {
        segments: gathered.segments,
        chunks: gathered.chunks,
        sources: gathered.sources,
        described: said.described(),
        closed: said.size.is_some(),
    })
}

// The same where the sources of the segments are wanted in their rows alone.
pub fn read(
    file: &[u8],
    source: u64,
    segments: &mut [u64],
    chunks: &mut [u64],
) -> Result<Tables, Refusal>
    ensures { Reads file.now source segments.old segments.new chunks.old chunks.new result }
{
    let mut tables = SourceTables::new();
    read_source(file, source, segments, chunks, &mut tables)
}
