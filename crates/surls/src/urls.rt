// The lists of URLs of two containers held against each other.
ghost use Rattle.std.specs.Prelude.{◌≤◌, List, ◌≡◌, length};
ghost use Rattle.boxes.specs.Answer.{given};
ghost use Rattle.boxes.specs.Bodies.{boxes_of};
ghost use Rattle.boxes.specs.Framing.{Box};
ghost use Rattle.surls.specs.Next.{Compares};
ghost use Rattle.partial.specs.Heading.{urls_in};
ghost use Rattle.partial.specs.Sources.{same_urls};

use crate::next::next_surl;
use crate::texts::url_of;
use boxes::body::Body;
use boxes::walk::Walk;

// What the next URLs of two walks say: they are equal, with both walks after them; neither walk has one; or the lists
// are not equal.
#[derive(Clone, Copy)]
enum Both {
    Equal(Walk, Walk),
    Ended,
    Differ,
}

// The next URL of each of two walks, held against each other.
fn both_next(file: &[u8], one: Walk, other: Walk) -> Both
    requires { (one.end.0 ≤ length file.now) × (other.end.0 ≤ length file.now) }
    ensures { Compares file.now one other result }
{
    let (Ok(first), Ok(second)) = (next_surl(file, one), next_surl(file, other)) else {
        return Both::Differ;
    };
    match (first, second) {
        (Some((a, after_a)), Some((b, after_b))) => {
            if url_of(file, a).bytes(file) == url_of(file, b).bytes(file) {
                Both::Equal(after_a, after_b)
            } else {
                Both::Differ
            }
        }
        (None, None) => Both::Ended,
        (Some(_), None) => Both::Differ,
        (None, Some(_)) => Both::Differ,
    }
}

// Whether the lists of URLs of two containers are equal, byte by byte and in the same order. MIME texts are not
// compared.
pub fn same_urls(file: &[u8], one: Body, other: Body) -> bool
    ensures { (bs cs : List Box) → boxes_of file.now one ≡ given bs
        → boxes_of file.now other ≡ given cs
        → one.end.0 ≤ length file.now
        → other.end.0 ≤ length file.now
        → result ≡ same_urls (urls_in file.now bs) (urls_in file.now cs) }
{
    let size = file.len() as u64;
    if size < one.end.0 || size < other.end.0 {
        return false;
    }
    let mut left = Walk::new(one);
    let mut right = Walk::new(other);
    loop {
        match both_next(file, left, right) {
            Both::Equal(a, b) => {
                left = a;
                right = b;
            }
            Both::Ended => return true,
            Both::Differ => return false,
        }
    }
}
