// Where the list of URLs of each source stands, in a table: the body of the container whose `surl` boxes have it.
ghost use Rattle.std.specs.Prelude.{◌≡◌};
ghost use Rattle.sources.specs.Lists.{container_number, container_of, list_in, ListPut, Unlisted};

use boxes::body::Body;
use boxes::kinds::Container;
use numerals::place::Place;
use partial::limits::FILE_LIMIT;

// The entries of as many sources as a file may have segments. An entry is one number: of the container, above that of
// where its body starts, and above that of where it ends.
// Not a table of bodies, since it stands on the stack of each call that reads: memory is fixed, and bodies take thrice as
// much.
pub const ALL_LISTS: usize = 64;
// More than there are containers.
const CONTAINERS: u64 = 8;
// As many as a file may have places.
const PLACES: u64 = 1_073_741_825;

// A container as a number, of which it is read back.
fn number_of(container: Container) -> u64
    ensures { result ≡ container_number container }
{
    container as u64
}

// The container of a number.
fn container_of(n: u64) -> Container
    ensures { result ≡ container_of n }
{
    match n {
        0 => Container::File,
        1 => Container::Pfil,
        2 => Container::Pseg,
        3 => Container::Fidx,
        _ => Container::Bidx,
    }
}

// Where the list of a source stands; of one past the table nowhere.
pub fn list_at(lists: &[u64; ALL_LISTS], source: u64) -> Body
    ensures { result ≡ list_in lists.now source }
{
    if ALL_LISTS as u64 <= source {
        return Body {
            container: Container::File,
            start: Place(0),
            end: Place(0),
        };
    }
    let list = lists[source as usize];
    Body {
        container: container_of(list % CONTAINERS),
        start: Place(list / CONTAINERS % PLACES),
        end: Place(list / CONTAINERS / PLACES),
    }
}

// Puts where the list of a source stands, if the table has an entry for it. A place past every file is kept as the last.
pub fn put_list(lists: &mut [u64; ALL_LISTS], source: u64, list: Body)
    ensures { ListPut lists.old source list lists.new }
{
    if source < ALL_LISTS as u64 {
        let start = list.start.0.min(FILE_LIMIT);
        let end = list.end.0.min(FILE_LIMIT);
        lists[source as usize] = number_of(list.container) + CONTAINERS * (start + PLACES * end);
    }
}

// Makes each entry one of no list.
pub fn clear_lists(lists: &mut [u64; ALL_LISTS])
    ensures { Unlisted lists.new }
{
    *lists = [0; ALL_LISTS];
}
