// The place in the file of an entry's chunk.
ghost use Rattle.fields.specs.Entry.{entry_of};
ghost use Rattle.fields.specs.State.{state_no};
ghost use Rattle.segment.specs.Placed.{Reaches, ToldWhole, Places};

use crate::data::held_at;
use crate::tops::TOPS;
use crate::whole::whole_at;
use boxes::framing::Framed;
use fields::entry::Entry;
use fields::state::State;
use numerals::numbers::Offset;
use numerals::order::ends_by;
use numerals::place::Place;
use refusals::Refusal;

// The place that an offset gives, counted from the first byte of the `pseg` box, if it is not before the file's first
// byte or past every place.
fn offset_place(pseg: Place, offset: Offset) -> Option<Place>
    ensures { Reaches pseg.0 offset result }
{
    match offset {
        // A place past 64 bits is past the end of any file.
        Offset::Ahead(n) => Some(Place(pseg.0.checked_add(n)?)),
        Offset::Back(n) => Some(Place(pseg.0.checked_sub(n)?)),
    }
}

// Whether so many bytes at a place are a chunk outside `pdat`: a good one of a mixed file, as whole boxes.
fn lies_whole(
    s: &[u8],
    tops: &[u32; TOPS],
    mixed: bool,
    state: State,
    place: Place,
    size: u64,
) -> bool
    ensures { ToldWhole s.now tops.now mixed (state_no state) place.0 size result }
{
    if !mixed {
        return false;
    }
    if !state.is_good() {
        return false;
    }
    // No box ends past the file.
    if !ends_by(place.0, size, s.len() as u64) {
        return false;
    }
    whole_at(s, tops, place, Place(place.0 + size))
}

// Where the chunk of an entry lies, 0 if it is not present or empty, with the data box that held the last chunk. The
// place of an empty chunk is not checked.
pub(crate) fn placed_at(
    s: &[u8],
    tops: &[u32; TOPS],
    mixed: bool,
    last: Framed,
    pseg: Place,
    e: Entry,
) -> Result<(Place, Framed), Refusal>
    ensures { Places s.now tops.now mixed last pseg.0 (entry_of e) result }
{
    let state = e.state;
    let size = e.size;
    if !state.is_present() {
        return Ok((Place(0), last));
    }
    if size == 0 {
        return Ok((Place(0), last));
    }
    let Some(place) = offset_place(pseg, e.offset) else {
        return Err(Refusal::OutsideData);
    };
    if let Some(b) = held_at(s, tops, last, place, size) {
        return Ok((place, b));
    }
    if lies_whole(s, tops, mixed, state, place, size) {
        Ok((place, last))
    } else {
        Err(Refusal::OutsideData)
    }
}
