// Whether bytes are whole boxes that may stand outside `pdat`.
ghost use Rattle.std.specs.Prelude.{◌≡◌};
ghost use Rattle.outside.specs.Whole.{whole_of};

use boxes::kinds::Container;
use boxes::walk::Walk;
use fields::allowed::may_stand;
use numerals::place::Place;

// How many whole allowed boxes bytes are from the first to the last, if they are. They have no more boxes than bytes.
pub fn whole_of(bytes: &[u8]) -> Option<u64>
    ensures { result ≡ whole_of bytes.now }
{
    let end = bytes.len() as u64;
    let mut walk = Walk {
        container: Container::File,
        at: Place(0),
        end: Place(end),
        left: end,
    };
    let mut boxes: u64 = 0;
    while let Some((b, next)) = walk.step(bytes).ok()? {
        if !may_stand(b) {
            return None;
        }
        walk = next;
        boxes += 1;
    }
    Some(boxes)
}
