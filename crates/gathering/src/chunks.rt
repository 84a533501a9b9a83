// The chunks of a `ploc`: each is judged, and its number or its row is put into the table.
ghost use Rattle.std.specs.Prelude.{◌+◌, ◌≤◌, ◌≡◌};
ghost use Rattle.partial.specs.Heading.{Heading};
ghost use Rattle.partial.specs.Limits.{chunk_limit};
ghost use Rattle.segment.specs.Placed.{Ready};
ghost use Rattle.gathering.specs.Chunks.{Chunked};

use crate::gathered::Gathered;
use crate::rows::put_chunk;
use fields::location::Location;
use numerals::place::Place;
use refusals::Refusal;
use segment::chunk::Cursor;
use segment::tops::TOPS;

// The chunks of a `ploc` in the `pseg` at a place, from its first entry on, by the table of the file's boxes. No byte
// may be left over. The cursor behind the last entry.
pub(crate) fn chunks_of(
    file: &[u8],
    tops: &[u32; TOPS],
    mixed: bool,
    pseg: Place,
    l: Location,
    first: Cursor,
    before: Gathered,
    numbered: bool,
    table: &mut [u64],
) -> Result<Cursor, Refusal>
    requires { before.chunks + l.count ≤ chunk_limit }
    ensures { (h : Heading) → Ready file.now tops.now mixed first.last h
        → Chunked file.now h pseg.0 l first before numbered table.old table.new result }
{
    let end = l.end;
    let mut cursor = first;
    for i in 0..l.count {
        let (chunk, next) = cursor.step(file, tops, mixed, pseg, l)?;
        put_chunk(
            table,
            numbered,
            before.chunks + i,
            before.segments,
            i,
            chunk,
        );
        cursor = next;
    }
    if cursor.at.0 != end.0 {
        return Err(Refusal::PlocWrong);
    }
    Ok(cursor)
}
