// A container in the copy: its header in the form that it has, and the boxes inside without its index.
ghost use Rattle.std.specs.Prelude.{◌^◌, ◌≤◌, ◌<◌, List, ◌≡◌, length, is_some};
ghost use Rattle.boxes.specs.Answer.{given};
ghost use Rattle.boxes.specs.Bodies.{boxes_of};
ghost use Rattle.boxes.specs.Framing.{Box, box_of};
ghost use Rattle.partial.specs.BoxList.{each};
ghost use Rattle.partial.specs.Heading.{Heading};
ghost use Rattle.partial.specs.Segments.{Segment};
ghost use Rattle.puts.specs.Pieces.{PutsPieces};
ghost use Rattle.rescue.specs.Copy.{box_bytes, unindexed};
ghost use Rattle.salvaging.specs.Inner.{inner_text, Among, Anew, head_of};
ghost use Rattle.salvaging.specs.Tables.{Moving, new_in};

use crate::places::Moves;
use crate::ploc::{Moved, put_ploc};
use boxes::body::Body;
use boxes::framing::Framed;
use boxes::kinds::{FIDX, PLOC};
use boxes::walk::Walk;
use numerals::place::Place;
use puts::pieces::{put_bytes, put_front, put_large_front};

// The bytes of a header in the large form.
const LARGE_FRONT: u64 = 16;

// Puts the header of a container with a body of n bytes.
pub(crate) fn put_head(buffer: &mut [u8], at: Place, b: Framed, n: u64) -> Place
    ensures { b.body.0 < 2 ^ 32 → n < 2 ^ 31 → PutsPieces buffer.old at.0 (head_of (box_of b) n) buffer.new result.0 }
{
    if b.body.0 == b.at.0.saturating_add(LARGE_FRONT) {
        return put_large_front(buffer, at, b.kind, n);
    }
    put_front(buffer, at, b.kind, n)
}

// Puts a box as it is.
pub(crate) fn put_same(buffer: &mut [u8], at: Place, file: &[u8], b: Framed) -> Place
    requires { (b.at.0 ≤ b.end.0) × (b.end.0 ≤ length file.now) }
    ensures { PutsPieces buffer.old at.0 (box_bytes file.now (box_of b)) buffer.new result.0 }
{
    put_bytes(buffer, at, &file[b.at.0 as usize..b.end.0 as usize])
}

// Puts a box that stands inside a container, as it is; in a `pseg`, which is put there, the entries of its `ploc` anew.
fn put_inside(
    buffer: &mut [u8],
    at: Place,
    file: &[u8],
    b: Framed,
    pseg: Option<Moved>,
    moves: &Moves,
) -> Place
    requires { (b.at.0 ≤ b.body.0) × (b.at.0 ≤ b.end.0) × (b.end.0 ≤ length file.now) }
    ensures { (h copy : Heading) (s : Segment) (bs : List Box) → Moving file.now h moves.now
        → Anew file.now h copy s bs pseg → Among (box_of b) bs
        → PutsPieces buffer.old at.0 (inner_text file.now (new_in file.now h) s (is_some pseg) (box_of b)) buffer.new result.0 }
{
    let Some(moved) = pseg else {
        return put_same(buffer, at, file, b);
    };
    if b.kind == PLOC {
        return put_ploc(buffer, at, file, b, moved, moves);
    }
    put_same(buffer, at, file, b)
}

// Puts the boxes inside a container of the file, of which the index stays out.
pub(crate) fn put_inner(
    buffer: &mut [u8],
    at: Place,
    file: &[u8],
    body: Body,
    pseg: Option<Moved>,
    moves: &Moves,
) -> Place
    requires { body.end.0 ≤ length file.now }
    ensures { (h copy : Heading) (s : Segment) (bs : List Box) → Moving file.now h moves.now
        → boxes_of file.now body ≡ given bs → Anew file.now h copy s bs pseg
        → PutsPieces buffer.old at.0 (each (inner_text file.now (new_in file.now h) s (is_some pseg)) (unindexed bs)) buffer.new result.0 }
{
    let mut walk = Walk::new(body);
    let mut end = at;
    while let Some((b, next)) = walk.step(file).unwrap_or(None) {
        walk = next;
        if b.kind != FIDX {
            end = put_inside(buffer, end, file, b, pseg, moves);
        }
    }
    end
}
