// Where each box of a file is in the copy.
ghost use Rattle.std.specs.Prelude.{ℕ, ◌^◌, ◌<◌, List, ◌≡◌, length};
ghost use Rattle.boxes.specs.Answer.{given};
ghost use Rattle.boxes.specs.Bodies.{boxes_of};
ghost use Rattle.boxes.specs.Framing.{Box, box_of};
ghost use Rattle.boxes.specs.Kinds.{box_at};
ghost use Rattle.partial.specs.Heading.{Heading};
ghost use Rattle.rescue.specs.Copy.{copy_size, unindexed, size_of};
ghost use Rattle.rescue.specs.Table.{code_for, code_told};
ghost use Rattle.salvaging.specs.Tables.{fate_at, start_of, FatesHeld, PlacesHeld, Sound, Moving, new_in};

use boxes::body::Body;
use boxes::framing::Framed;
use boxes::kinds::{Container, FIDX, PSEG};
use boxes::walk::Walk;
use numerals::place::Place;
use rescue::table::{ALL_FATES, Fate};
use segment::tops::{TOPS, top_before};

// As many places as a file may have boxes.
pub(crate) const ALL_PLACES: usize = 512;

// The number of `pfil` among the boxes of a file.
pub(crate) const PFIL_NUMBER: usize = 1;

// Where the boxes of a file stand in it, and where each of them is in the copy.
#[derive(Drop)]
pub(crate) struct Moves {
    pub(crate) tops: [u32; TOPS],
    pub(crate) places: [u64; ALL_PLACES],
}

impl Moves {
    // Where a place of the file is in the copy.
    pub(crate) fn new_place(&self, place: Place) -> Place
        ensures { (f : List ℕ) (h : Heading) → Moving f h self.now → place.0 < length f → result.0 ≡ new_in f h place.0 }
    {
        // The last box that does not start behind it.
        let number = top_before(&self.tops, Place(place.0.saturating_add(1)));
        let at = u64::from(self.tops[number]);
        Place(self.places[number].saturating_add(place.0.saturating_sub(at)))
    }
}

// How many bytes the boxes of a container have without its index.
pub(crate) fn inner_size(file: &[u8], body: Body) -> u64
    ensures { (bs : List Box) → boxes_of file.now body ≡ given bs → body.end.0 < 2 ^ 32 → result ≡ size_of (unindexed bs) }
{
    let mut walk = Walk::new(body);
    let mut size: u64 = 0;
    while let Some((b, next)) = walk.step(file).unwrap_or(None) {
        if b.kind != FIDX {
            size = size.saturating_add(b.end.0.saturating_sub(b.at.0));
        }
        walk = next;
    }
    size
}

// How many bytes of a box of that number are in the copy, by its fate.
fn copy_size(file: &[u8], b: Framed, number: usize, fate: Fate) -> u64
    ensures { (h : Heading) → Sound file.now h → number < length h.boxes → box_of b ≡ box_at number h.boxes
        → code_told fate ≡ code_for file.now h number → result ≡ copy_size (fate_at file.now h number) }
{
    if let Fate::Dropped(_) = fate {
        return 0;
    }
    let front = b.body.0.saturating_sub(b.at.0);
    if number == PFIL_NUMBER {
        return front.saturating_add(inner_size(file, b.as_container(Container::Pfil)));
    }
    if b.kind == PSEG {
        return front.saturating_add(inner_size(file, b.as_container(Container::Pseg)));
    }
    b.end.0.saturating_sub(b.at.0)
}

// Tells where each box is in the copy, by the fates, and how long the copy is.
pub(crate) fn places_of(
    file: &[u8],
    fates: &[Fate; ALL_FATES],
    places: &mut [u64; ALL_PLACES],
) -> u64
    ensures { (h : Heading) → Sound file.now h → FatesHeld file.now h fates.now
        → PlacesHeld file.now h places.new × (result ≡ start_of file.now h (length h.boxes)) }
{
    // Nothing is left there of another file.
    *places = [0; ALL_PLACES];
    let mut walk = Walk::new(Body {
        container: Container::File,
        start: Place(0),
        end: Place(file.len() as u64),
    });
    let mut size: u64 = 0;
    // The number of the box: a walk is no iterator that counts.
    let mut k = 0;
    while let Some((b, next)) = walk.step(file).unwrap_or(None) {
        places[k] = size;
        size = size.saturating_add(copy_size(file, b, k, fates[k]));
        walk = next;
        k += 1;
    }
    size
}
