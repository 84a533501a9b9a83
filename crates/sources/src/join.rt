// One segment more, put to the sources of those before it.
ghost use Rattle.sources.specs.Held.{Joins};

use crate::find::source_of;
use crate::lists::{ALL_LISTS, put_list};
use crate::numbers::{ALL_SOURCES, put_source};
use boxes::body::Body;

// The number of the source of the segment of that number, whose list stands in a container, beside segments of so many
// sources. It is put into its table, and where the list of a new source stands into the other.
pub fn join(
    file: &[u8],
    list: Body,
    segment: u64,
    many: u64,
    sources: &mut [u64; ALL_SOURCES],
    lists: &mut [u64; ALL_LISTS],
) -> u64
    ensures { Joins file.now list segment many sources.old lists.old result
        sources.new lists.new }
{
    let source = source_of(file, lists, many, list);
    if source == many {
        put_list(lists, source, list);
    }
    put_source(sources, segment, source);
    source
}
