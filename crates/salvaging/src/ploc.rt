// The `ploc` of a segment in the copy: its head as it is, its entries with the offsets of the new places.
ghost use Rattle.std.specs.Prelude.{ℕ, ◌≤◌, List, map, ◌≡◌, length};
ghost use Rattle.boxes.specs.Answer.{given};
ghost use Rattle.boxes.specs.Framing.{box_of};
ghost use Rattle.additions.specs.Append.{entry_bytes};
ghost use Rattle.fields.specs.Location.{ploc_of};
ghost use Rattle.fields.specs.Entry.{entry_of};
ghost use Rattle.partial.specs.Entries.{ploc_head, place_of};
ghost use Rattle.partial.specs.Heading.{Heading};
ghost use Rattle.partial.specs.Segments.{Segment};
ghost use Rattle.partial.proofs.Meaning.SequenceLaws.{Each};
ghost use Rattle.puts.specs.Entries.{Entries};
ghost use Rattle.puts.specs.Pieces.{PutsPieces};
ghost use Rattle.rescue.specs.Copy.{placed_anew, offset_to, ploc_bytes};
ghost use Rattle.rescue.proofs.PlocLaws.{Lies};
ghost use Rattle.salvaging.specs.Tables.{Moving, new_in};
ghost use Rattle.salvaging.specs.Ploc.{offset_for, chunk_by, PlocRead};

use crate::places::Moves;
use boxes::framing::Framed;
use fields::entry::{Entry, entry_at};
use fields::location::{Location, location_of};
use numerals::numbers::Offset;
use numerals::place::Place;
use puts::pieces::put_bytes;
use puts::ploc::{Widths, put_entry};

// Where a `pseg` is in the file, and where in the copy.
#[derive(Clone, Copy)]
pub(crate) struct Moved {
    pub(crate) from: Place,
    pub(crate) to: Place,
}

// The offset from one place to another.
fn offset_to(from: Place, to: Place) -> Offset
    ensures { result ≡ offset_to from.0 to.0 }
{
    if from.0 <= to.0 {
        Offset::Ahead(to.0 - from.0)
    } else {
        Offset::Back(from.0 - to.0)
    }
}

// The place that an offset gives, counted from the first byte of the `pseg` box.
fn place_by(pseg: Place, offset: Offset) -> Place
    ensures { result.0 ≡ offset_for pseg.0 offset }
{
    match offset {
        Offset::Ahead(n) => Place(pseg.0.saturating_add(n)),
        Offset::Back(n) => Place(pseg.0.saturating_sub(n)),
    }
}

// The offset of an entry's chunk in the copy: 0 where it has no data.
fn offset_anew(e: Entry, pseg: Moved, moves: &Moves) -> Offset
    ensures { (f : List ℕ) (h : Heading) (start place : ℕ) → Moving f h moves.now → pseg.to.0 ≡ new_in f h pseg.from.0
        → place_of h pseg.from.0 (entry_of e) ≡ given place → result ≡ (placed_anew (new_in f h) pseg.from.0 (chunk_by start (entry_of e) place)).offset }
{
    if !e.state.is_present() {
        return Offset::Ahead(0);
    }
    if e.size == 0 {
        return Offset::Ahead(0);
    }
    offset_to(pseg.to, moves.new_place(place_by(pseg.from, e.offset)))
}

// Puts the entries of a `ploc`, each with its new offset.
fn put_entries(
    buffer: &mut [u8],
    at: Place,
    file: &[u8],
    l: Location,
    pseg: Moved,
    moves: &Moves,
) -> Place
    ensures { (h : Heading) (s : Segment) → Moving file.now h moves.now
        → PlocRead file.now h l pseg.from.0 s → pseg.to.0 ≡ new_in file.now h pseg.from.0
        → Entries l.length_size l.offset_size (map (placed_anew (new_in file.now h) pseg.from.0) s.chunks)
        → PutsPieces buffer.old at.0
        (entry_bytes l.length_size l.offset_size (map (placed_anew (new_in file.now h) pseg.from.0) s.chunks)) buffer.new result.0 }
{
    let widths = Widths {
        size: l.length_size,
        offset: l.offset_size,
    };
    let mut next = at;
    let mut entry = l.first;
    for i in 0..l.count {
        let Ok(e) = entry_at(file, l, entry) else {
            return next;
        };
        let offset = offset_anew(e, pseg, moves);
        next = put_entry(buffer, next, widths, e.size, e.state.number(), offset);
        entry = e.next;
    }
    next
}

// Puts the `ploc` of a segment.
pub(crate) fn put_ploc(
    buffer: &mut [u8],
    at: Place,
    file: &[u8],
    b: Framed,
    pseg: Moved,
    moves: &Moves,
) -> Place
    requires { (b.at.0 ≤ b.body.0) × (b.end.0 ≤ length file.now) }
    ensures { (h copy : Heading) (s : Segment) (l : Location) → Moving file.now h moves.now
        → ploc_head file.now (box_of b) ≡ given (ploc_of l) → PlocRead file.now h l pseg.from.0 s
        → Each (Lies (new_in file.now h) s.place copy) s.chunks → pseg.to.0 ≡ new_in file.now h pseg.from.0
        → PutsPieces buffer.old at.0 (ploc_bytes file.now (new_in file.now h) s (box_of b)) buffer.new result.0 }
{
    let Ok(l) = location_of(file, b) else {
        return at;
    };
    let first = l.first;
    let entries = put_bytes(buffer, at, &file[b.at.0 as usize..first.0 as usize]);
    put_entries(buffer, entries, file, l, pseg, moves)
}
