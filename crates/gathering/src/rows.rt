// Segments and chunks, put into a table: the row of a segment, the number or the row of a chunk.
ghost use Rattle.std.specs.Prelude.{◌*◌, ◌≤◌};
ghost use Rattle.boxes.specs.Framing.{box_limit, box_of};
ghost use Rattle.partial.specs.Limits.{chunk_limit};
ghost use Rattle.partial.specs.Tables.{segment_row_length};
ghost use Rattle.segment.specs.Chunk.{chunk_of};
ghost use Rattle.filling.specs.Rows.{Put};
ghost use Rattle.gathering.specs.Forms.{form_length, put_of};
ghost use Rattle.gathering.specs.Rows.{row_by};

use crate::numbers::number_of;
use boxes::framing::Framed;
use fields::fields::Fields;
use filling::rows::put_row;
use numerals::place::Place;
use partial::rows::{CHUNK_ROW, SEGMENT_ROW};
use segment::chunk::Chunk;

// Writes a chunk behind so many others, by its number or by its row: the number of its segment, its index there, its
// start, size, state and place.
// A flag says which, and no closure, since the contracts of a pass say what either form leaves in the table.
pub(crate) fn put_chunk(
    table: &mut [u64],
    numbered: bool,
    before: u64,
    segment: u64,
    index: u64,
    c: Chunk,
)
    requires { before ≤ chunk_limit }
    ensures { Put table.old (form_length numbered * before) (put_of numbered segment index (chunk_of c)) table.new }
{
    if numbered {
        let number = [number_of(c)];
        put_row(table, before as usize, &number);
        return;
    }
    let row = [
        segment,
        index,
        c.start.0,
        c.size,
        c.state.number(),
        c.place.0,
    ];
    put_row(table, (CHUNK_ROW * before) as usize, &row);
}

// Writes the row of a segment behind so many others: the place of its box, the fields of its `pshd`, the number of its
// chunks, the place and the length of the body of its `pshd`, and the number of its source.
pub(crate) fn put_segment(
    table: &mut [u64],
    before: u64,
    place: Place,
    fields: Fields,
    count: u64,
    header: Framed,
    source: u64,
)
    requires { (before ≤ box_limit) × (header.body.0 ≤ header.end.0) }
    ensures { Put table.old (segment_row_length * before) (row_by place.0 fields count (box_of header) source) table.new }
{
    let body = header.body;
    let end = header.end;
    let row = [
        place.0,
        fields.offset.0,
        fields.flags,
        fields.repair,
        count,
        body.0,
        end.0 - body.0,
        source,
    ];
    put_row(table, (SEGMENT_ROW * before) as usize, &row);
}
