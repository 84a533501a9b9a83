// The index of a file: its rows, with what is served of each box.
ghost use Rattle.indexrows.specs.Calls.{Indexes};

use crate::marking::mark_all;
use fileindex::file::index_of;
use gathering::tables::SourceTables;
use partial::rows::{ALL_NUMBERS, ALL_SEGMENT_ROWS, INDEX_ROW};
use reading::judging::judge_into;
use refusals::Refusal;
use sources::find::source_of;
use spans::kept::Kept;

// Tells the boxes of a file's index in rows, and how many they are. After a refusal the table is as it was.
pub fn index(file: &[u8], table: &mut [u64]) -> Result<u64, Refusal>
    ensures { Indexes file.now table.old table.new result }
{
    // What is kept goes into tables of the call's own, by which the rows are marked.
    let mut rows = [0; ALL_SEGMENT_ROWS];
    let mut numbers = [0; ALL_NUMBERS];
    let mut tables = SourceTables::new();
    let judged = judge_into(file, &mut rows, &mut numbers, &mut tables)?;
    let count = judged.index;
    if table.len() as u64 / INDEX_ROW < count {
        return Err(Refusal::TableTooShort);
    }
    if count == 0 {
        return Ok(0);
    }
    let gathered = judged.gathered;
    let list = judged.head.list;
    let in_pfil = source_of(file, &tables.lists, gathered.sources, list);
    index_of(file, &tables.sizes, &tables.sources, in_pfil, table)?;
    // The list in `pfil` is that of one source more where no segment uses it.
    let below = gathered.sources.max(in_pfil + 1);
    let kept = Kept {
        many: gathered.segments,
        segments: &rows,
        sources: &tables.sources,
        numbers: &numbers,
    };
    mark_all(below, kept, &tables.sizes, count, table);
    Ok(count)
}
