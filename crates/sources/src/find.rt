// The source of a list of URLs, among those whose lists are known.
ghost use Rattle.std.specs.Prelude.{List, ◌≡◌};
ghost use Rattle.boxes.specs.Framing.{Box};
ghost use Rattle.partial.specs.Heading.{urls_in};
ghost use Rattle.partial.specs.Sources.{same_urls};
ghost use Rattle.sources.specs.Held.{Stands, SourceOf};

use crate::lists::{ALL_LISTS, list_at};
use boxes::body::Body;
use surls::urls::same_urls;

// Whether the lists of two containers are equal: they are not compared where they stand at the same place.
fn same_list(file: &[u8], one: Body, other: Body) -> bool
    ensures { (bs cs : List Box) → Stands file.now one bs → Stands file.now other cs
        → result ≡ same_urls (urls_in file.now bs) (urls_in file.now cs) }
{
    one == other || same_urls(file, one, other)
}

// The number of the source whose list stands in a container, beside segments of so many sources: that of a source with
// the same list, or the next one.
pub fn source_of(file: &[u8], lists: &[u64; ALL_LISTS], many: u64, list: Body) -> u64
    ensures { SourceOf file.now lists.now many list result }
{
    for n in 0..many {
        if same_list(file, list_at(lists, n), list) {
            return n;
        }
    }
    many
}
