// The places of the boxes of a file, in a table: the box before a place is found there without a walk.
ghost use Rattle.std.specs.Prelude.{◌^◌, ◌<◌, List, [], ◌≡◌, length, get_or};
ghost use Rattle.boxes.specs.Answer.{given};
ghost use Rattle.boxes.specs.Framing.{Box, boxes_in};
ghost use Rattle.boxes.specs.declared.kinds.Container.TheVariants.{File};
ghost use Rattle.segment.specs.Tops.{Tops, Before};

use boxes::body::Body;
use boxes::kinds::Container;
use boxes::walk::Walk;
use numerals::place::Place;

// As many places as a container may hold boxes.
pub const TOPS: usize = 512;

// What stands behind the last place. No box starts there, and the whole table ascends, so that it is searched without a
// count of its boxes. Not an option in each entry, which would double what the table takes of fixed memory.
pub const NO_TOP: u32 = 0xffff_ffff;

// More places than a file has.
const PLACES: u64 = 0x1_0000_0000;

// Puts the places of the boxes of a file whose framing is right, and that is not too long for the table, in their order,
// into one that has none yet.
pub fn tops_of(s: &[u8], tops: &mut [u32; TOPS])
    ensures { (bs : List Box) → length s.now < 2 ^ 32 → Tops [] tops.old → boxes_in File s.now 0 (length s.now) ≡ given bs → Tops bs tops.new }
{
    let mut walk = Walk::new(Body {
        container: Container::File,
        start: Place(0),
        end: Place(s.len() as u64),
    });
    for top in tops.iter_mut() {
        let Some((b, next)) = walk.step(s).unwrap_or(None) else {
            return;
        };
        let at = b.at;
        *top = (at.0 % PLACES) as u32;
        walk = next;
    }
}

// A place of the table as a number of a file's places.
pub fn wide(top: u32) -> u64
    ensures { result ≡ top }
{
    u64::from(top)
}

// What stands in a table.
pub(crate) fn top_at(tops: &[u32; TOPS], number: usize) -> u64
    requires { number < 512 }
    ensures { result ≡ get_or tops.now number 0 }
{
    wide(tops[number])
}

// The number of the last box that starts before a place, by halves; 0 if none does. It promises the same of a table that
// does not ascend, of which the search of std promises nothing.
pub fn top_before(tops: &[u32; TOPS], place: Place) -> usize
    ensures { Before tops.now place.0 result }
{
    let mut low = 0;
    let mut high = TOPS;
    while 1 < high - low {
        let middle = low + (high - low) / 2;
        if top_at(tops, middle) < place.0 {
            low = middle;
        } else {
            high = middle;
        }
    }
    low
}
