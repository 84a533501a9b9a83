// The pass over the segments of a file whose framing is known to be right.
ghost use Rattle.partial.specs.Heading.{Heading};
ghost use Rattle.gathering.specs.Pass.{Opened, Gathers};

use crate::basis::Basis;
use crate::gathered::Gathered;
use crate::step::segment_of;
use crate::tables::SourceTables;
use boxes::body::Body;
use boxes::kinds::{Container, PSEG};
use boxes::walk::Walk;
use numerals::place::Place;
use refusals::Refusal;
use segment::data::NO_BOX;
use segment::tops::{NO_TOP, TOPS, tops_of};

// Judges the segments of a file, which is mixed or not and whose `pfil` has its list of URLs, if any, in that container,
// in their order, and puts their rows and the numbers or the rows of their chunks into the tables that have room for them all.
// What their ends say, their sources and where the lists of these stand go into the caller's own tables, which may hold
// anything after a refusal. What is gathered of all segments.
pub fn pass(
    file: &[u8],
    mixed: bool,
    list: Body,
    numbered: bool,
    segments: &mut [u64],
    chunks: &mut [u64],
    tables: &mut SourceTables,
) -> Result<Gathered, Refusal>
    ensures { (h : Heading) → Opened file.now mixed list h
        → Gathers file.now h numbered segments.old segments.new chunks.old chunks.new tables.new result }
{
    let basis = Basis::new(file, mixed, list);
    let mut tops = [NO_TOP; TOPS];
    tops_of(file, &mut tops);
    tables.clear();
    let mut walk = Walk::new(Body {
        container: Container::File,
        start: Place(0),
        end: Place(file.len() as u64),
    });
    let mut gathered = Gathered::none();
    // No box held a chunk before the first.
    let mut last = NO_BOX;
    while let Some((b, next)) = walk.step(file)? {
        walk = next;
        if b.kind == PSEG {
            let (more, held) = segment_of(
                file, &tops, basis, b, gathered, last, numbered, segments, chunks, tables,
            )?;
            gathered = more;
            last = held;
        }
    }
    Ok(gathered)
}
