// The pass over the boxes of a file whose heading and segments are known to be right.
ghost use Rattle.std.specs.Prelude.{ℕ, List, ◌≡◌};
ghost use Rattle.boxes.specs.Answer.{given};
ghost use Rattle.partial.specs.Heading.{Heading, heading};
ghost use Rattle.partial.specs.Limits.{source_limit};
ghost use Rattle.partial.specs.Reading.{segments};
ghost use Rattle.partial.specs.Segments.{Segment};
ghost use Rattle.fileindex.specs.File.{index_by, end_in, NumberedBy, Tells};

use crate::parts::{index_at, put_source, segments_with, source_of};
use boxes::body::Body;
use boxes::kinds::Container;
use boxes::walk::Walk;
use ends::table::{ALL_SIZES, sizes_at};
use indexing::marks::Marks;
use numerals::place::Place;
use refusals::Refusal;
use sources::numbers::ALL_SOURCES;

// What is marked with the boxes of the index of a file whose heading and segments are known to be right, or 36: that in
// `pfil`, from the first byte of its source on, and those in segments, each from its `source_byte_offset` on; each by
// where its source ends, told by the source's number. Its rows in a table that has room for them, each with that number
// for what is served.
pub fn index_of(
    file: &[u8],
    sizes: &[u64; ALL_SIZES],
    sources: &[u64; ALL_SOURCES],
    in_pfil: u64,
    table: &mut [u64],
) -> Result<Marks, Refusal>
    ensures { (h : Heading) (ss : List Segment) (number : List (List ℕ) → ℕ) → heading file.now ≡ given h
        → segments source_limit file.now h ≡ given ss → NumberedBy number h ss sources.now in_pfil
        → Tells number (index_by file.now h (λ us. end_in sizes.now (number us)) ss)
        table.old table.new result }
{
    let mut walk = Walk::new(Body {
        container: Container::File,
        start: Place(0),
        end: Place(file.len() as u64),
    });
    let mut marks = Marks::default();
    let mut segments = 0;
    while let Some((b, next)) = walk.step(file)? {
        walk = next;
        let source = source_of(b, segments, sources, in_pfil);
        let size = sizes_at(sizes, source).size;
        segments = segments_with(b, segments);
        if let Some(more) = index_at(file, b, size, marks, table)? {
            put_source(table, marks.count, more.count, source);
            marks = more;
        }
    }
    Ok(marks)
}
