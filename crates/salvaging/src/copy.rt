// The copy of a file whose framing is right: each box that stays, where its new place is.
ghost use Rattle.std.specs.Prelude.{◌≤◌, ◌<◌, List, ◌≡◌, length, is_some};
ghost use Rattle.boxes.specs.Answer.{given};
ghost use Rattle.boxes.specs.Framing.{Box, box_of, boxes_in};
ghost use Rattle.boxes.specs.Kinds.{box_at};
ghost use Rattle.partial.specs.BoxList.{each};
ghost use Rattle.partial.specs.Heading.{Heading};
ghost use Rattle.partial.specs.Segments.{Segment};
ghost use Rattle.puts.specs.Pieces.{PutsPieces};
ghost use Rattle.rescue.specs.Copy.{unindexed, size_of, reheaded, copy_of, copied};
ghost use Rattle.rescue.specs.Table.{code_for, code_told};
ghost use Rattle.salvaging.specs.Inner.{inner_text, Anew};
ghost use Rattle.salvaging.specs.Tables.{fates_in, fate_at, start_of, FatesHeld, Moving, new_in};

use crate::inner::{put_head, put_inner, put_same};
use crate::places::{Moves, PFIL_NUMBER, inner_size};
use crate::ploc::Moved;
use boxes::body::Body;
use boxes::framing::Framed;
use boxes::kinds::{Container, PSEG};
use boxes::walk::Walk;
use numerals::place::Place;
use rescue::table::{ALL_FATES, Fate};

// Puts a container of the file: its header, and the boxes inside without its index.
fn put_container(
    buffer: &mut [u8],
    at: Place,
    file: &[u8],
    container: Container,
    b: Framed,
    pseg: Option<Moved>,
    moves: &Moves,
) -> Place
    requires { b.end.0 ≤ length file.now }
    ensures { (h copy : Heading) (s : Segment) (bs : List Box) → Moving file.now h moves.now
        → b.body.0 ≤ b.end.0 → boxes_in container file.now b.body.0 b.end.0 ≡ given bs
        → length (each (inner_text file.now (new_in file.now h) s (is_some pseg)) (unindexed bs)) ≡ size_of (unindexed bs)
        → Anew file.now h copy s bs pseg
        → PutsPieces buffer.old at.0 (reheaded (box_of b) (each (inner_text file.now (new_in file.now h) s (is_some pseg)) (unindexed bs))) buffer.new result.0 }
{
    let body = b.as_container(container);
    let size = inner_size(file, body);
    let start = put_head(buffer, at, b, size);
    put_inner(buffer, start, file, body, pseg, moves)
}

// Puts what stands in the copy for a box of that number, which is put at its new place.
fn put_box(
    buffer: &mut [u8],
    at: Place,
    file: &[u8],
    b: Framed,
    number: usize,
    fate: Fate,
    moves: &Moves,
) -> Place
    requires { (b.at.0 ≤ b.end.0) × (b.end.0 ≤ length file.now) }
    ensures { (h : Heading) → Moving file.now h moves.now → number < length h.boxes
        → box_of b ≡ box_at number h.boxes → code_told fate ≡ code_for file.now h number → at.0 ≡ start_of file.now h number
        → PutsPieces buffer.old at.0 (copy_of file.now (new_in file.now h) (fate_at file.now h number)) buffer.new result.0 }
{
    if let Fate::Dropped(_) = fate {
        return at;
    }
    if number == PFIL_NUMBER {
        return put_container(buffer, at, file, Container::Pfil, b, None, moves);
    }
    if b.kind == PSEG {
        let moved = Moved { from: b.at, to: at };
        return put_container(buffer, at, file, Container::Pseg, b, Some(moved), moves);
    }
    put_same(buffer, at, file, b)
}

// Puts the copy of a file, by the fates of its boxes and their new places.
pub(crate) fn put_copy(
    buffer: &mut [u8],
    file: &[u8],
    fates: &[Fate; ALL_FATES],
    moves: &Moves,
) -> Place
    ensures { (h : Heading) → Moving file.now h moves.now
        → FatesHeld file.now h fates.now
        → PutsPieces buffer.old 0 (copied file.now (fates_in file.now h)) buffer.new result.0 }
{
    let mut walk = Walk::new(Body {
        container: Container::File,
        start: Place(0),
        end: Place(file.len() as u64),
    });
    let mut end = Place(0);
    // The number of the box: a walk is no iterator that counts.
    let mut k = 0;
    while let Some((b, next)) = walk.step(file).unwrap_or(None) {
        end = put_box(buffer, end, file, b, k, fates[k], moves);
        walk = next;
        k += 1;
    }
    end
}
