// The `ploc` box, as it is written.
ghost use Rattle.std.specs.Prelude.{ℕ, ◌≤◌, List, ◌∷◌, ◌≡◌, length};
ghost use Rattle.additions.specs.Addition.{Item, items, size_of, goes_out};
ghost use Rattle.additions.specs.Append.{back, placed, placed_with, flag_byte, entry_bytes};
ghost use Rattle.fields.specs.State.{state_no};
ghost use Rattle.partial.specs.Limits.{file_limit};
ghost use Rattle.partial.specs.Segments.{present};
ghost use Rattle.adding.specs.Counts.{Whole};
ghost use Rattle.adding.specs.Layout.{PlocLaid};
ghost use Rattle.puts.specs.Boxes.{ploc_box};
ghost use Rattle.puts.specs.Entries.{Entry, entry_of, Entries, Distances, Fits};
ghost use Rattle.puts.specs.Pieces.{PutsPieces};

use crate::pieces::{put_field, put_front, put_offset};
use adding::counts::Counts;
use adding::layout::Layout;
use boxes::kinds::PLOC;
use fields::state::State;
use numerals::numbers::{Offset, within};
use numerals::place::Place;
use outside::items::{data_of, goes_out};

// The flags of a chunk: bit corrupted, bit present, six zero bits.
fn flags_of(state: State) -> u64
    ensures { result ≡ flag_byte (state_no state) }
{
    match state {
        State::Good => 0x40,
        State::Damaged => 0xc0,
        State::Lost => 0x80,
        State::Elsewhere => 0,
    }
}

// The state of a number in a chunk list; a number of no state has the flags of one that is elsewhere.
fn state_for(number: u64) -> State
    ensures { (flag_byte (state_no result) ≡ flag_byte number) × (present (state_no result) ≡ present number) }
{
    match State::try_from(number) {
        Ok(state) => state,
        Err(_) => State::Elsewhere,
    }
}

// Two widths: of the sizes and of the offsets.
#[derive(Clone, Copy)]
pub struct Widths {
    pub size: usize,
    pub offset: usize,
}

// Puts an entry: flags, size and, where the chunk is present, the offset of its data.
pub fn put_entry(
    buffer: &mut [u8],
    at: Place,
    widths: Widths,
    size: u64,
    state: u64,
    offset: Offset,
) -> Place
    ensures { Entry widths.size widths.offset size state offset
        → PutsPieces buffer.old at.0 (entry_of widths.size widths.offset size state offset) buffer.new result.0 }
{
    let known = state_for(state);
    let sized = put_field(buffer, at, 1, flags_of(known));
    let next = put_field(buffer, sized, widths.size, size);
    if !known.is_present() {
        return next;
    }
    put_offset(buffer, next, widths.offset, offset)
}

// How far before the `pseg` the next data lies: in `pdat`, and outside.
#[derive(Clone, Copy)]
struct Backs {
    inside: u64,
    outside: u64,
}

impl Backs {
    // Of the next item, where the good ones go outside or do not.
    fn of(self, outside: bool, state: u64) -> u64
        ensures { (out size : ℕ) (is : List Item)
            → Distances outside out (record { size = size; state = state } ∷ is) self
            → result ≡ back outside out (record { size = size; state = state }) is }
    {
        if goes_out(outside, state) {
            self.outside
        } else {
            self.inside
        }
    }

    // Past that item.
    fn past(self, outside: bool, size: u64, state: u64) -> Self
        ensures { (out : ℕ) (is : List Item) → Distances outside out (record { size = size; state = state } ∷ is) self → Distances outside out is result }
    {
        let n = data_of(size, state);
        if goes_out(outside, state) {
            Backs {
                inside: self.inside,
                outside: self.outside.saturating_sub(n),
            }
        } else {
            Backs {
                inside: self.inside.saturating_sub(n),
                outside: self.outside,
            }
        }
    }
}

// Puts the entries of a chunk list: the data of each item lies before the `pseg` with all that follows it in `pdat`
// or outside.
fn put_entries(
    buffer: &mut [u8],
    at: Place,
    widths: Widths,
    outside: bool,
    backs: Backs,
    list: &[u64],
) -> Place
    ensures { Entries widths.size widths.offset (placed outside (items list.now))
        → Distances outside (size_of (goes_out outside) (items list.now)) (items list.now) backs
        → PutsPieces buffer.old at.0 (entry_bytes widths.size widths.offset (placed outside (items list.now))) buffer.new result.0 }
{
    let mut next = at;
    let mut left = backs;
    for i in 0..list.len() / 2 {
        let size = list[2 * i];
        let state = list[2 * i + 1];
        let back = left.of(outside, state);
        next = put_entry(buffer, next, widths, size, state, Offset::Back(back));
        left = left.past(outside, size, state);
    }
    next
}

// Puts `ploc`: version 0, flags 0, the two widths, data reference index 0, the chunk count, the entries. So many
// bytes stand outside.
pub(crate) fn put_ploc(
    buffer: &mut [u8],
    at: Place,
    counts: Counts,
    layout: Layout,
    outside: bool,
    out: u64,
    list: &[u64],
) -> Place
    ensures { Whole (items list.now) counts → PlocLaid outside (items list.now) layout
        → Fits (items list.now) → out ≡ size_of (goes_out outside) (items list.now)
        → length (ploc_box outside list.now) ≤ file_limit
        → PutsPieces buffer.old at.0 (ploc_box outside list.now) buffer.new result.0 }
{
    let size = within(layout.length_size);
    let offset = within(layout.offset_size);
    let version = put_front(buffer, at, PLOC, layout.ploc);
    let widths = put_field(buffer, version, 4, 0);
    let index = put_field(buffer, widths, 1, (size * 16 + offset) as u64);
    let count = put_field(buffer, index, 2, 0);
    let entries = put_field(buffer, count, 2, counts.items);
    let widths = Widths { size, offset };
    let backs = Backs {
        inside: counts.bytes,
        outside: out,
    };
    put_entries(buffer, entries, widths, outside, backs, list)
}
