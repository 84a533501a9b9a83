// The source that an addition goes to, among those whose lists of URLs are known.
ghost use Rattle.going.specs.Source.{SourceWith, SourceFor, GoesTo, HasList};

use crate::texts::same_texts;
use boxes::body::Body;
use sources::find::source_of;
use sources::lists::{ALL_LISTS, list_at};
use surls::first::has_surl;

// The number of the source whose URLs are those of the texts, beside segments of so many sources: that of a source with
// the same list, or the next one.
fn source_with(
    file: &[u8],
    lists: &[u64; ALL_LISTS],
    many: u64,
    texts: &[u8],
    lengths: &[u64],
) -> u64
    ensures { SourceWith file.now lists.now many texts.now lengths.now result }
{
    for n in 0..many {
        if same_texts(file, list_at(lists, n), texts, lengths) {
            return n;
        }
    }
    many
}

// The number of the source that an addition with these texts goes to: without any it is that of the list in `pfil`.
pub fn source_for(
    file: &[u8],
    lists: &[u64; ALL_LISTS],
    many: u64,
    list: Body,
    texts: &[u8],
    lengths: &[u64],
) -> u64
    ensures { SourceFor file.now lists.now many list texts.now lengths.now result }
{
    if lengths.len() < 2 {
        return source_of(file, lists, many, list);
    }
    source_with(file, lists, many, texts, lengths)
}

// Whether an addition with these texts goes to the source of the list in a container: it has none, or the same URLs.
pub fn goes_to(file: &[u8], list: Body, texts: &[u8], lengths: &[u64]) -> bool
    ensures { GoesTo file.now list texts.now lengths.now result }
{
    lengths.len() <= 1 || same_texts(file, list, texts, lengths)
}

// Whether an addition with texts of these lengths has a list of URLs: its own, or that in a container.
pub fn has_list(file: &[u8], list: Body, lengths: &[u64]) -> bool
    ensures { HasList file.now list lengths.now result }
{
    2 <= lengths.len() || has_surl(file, list)
}
