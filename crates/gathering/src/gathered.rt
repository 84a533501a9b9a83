// What is gathered of the segments of a file, one after another, beside a table of what their ends say.
ghost use Rattle.std.specs.Prelude.{◌+◌, ◌≤◌, ◌<◌, List, [], ◌∷◌, ◌++◌, ◌≡◌, length};
ghost use Rattle.boxes.specs.Framing.{box_limit};
ghost use Rattle.partial.specs.Index.{has_index};
ghost use Rattle.partial.specs.Limits.{chunk_limit, source_limit};
ghost use Rattle.partial.specs.Segments.{Segment, end_of};
ghost use Rattle.ends.specs.Table.{sources, Holds};
ghost use Rattle.gathering.specs.Gathered.{gathered_of};

use ends::sizes::gives_size;
use ends::table::{ALL_SIZES, put_sizes, sizes_at};
use partial::position::Position;

// How many segments there are, how many chunks they have, of how many sources they are, and whether some segment has an
// index.
#[derive(Clone, Copy)]
pub struct Gathered {
    pub segments: u64,
    pub chunks: u64,
    pub sources: u64,
    pub indexed: bool,
}

impl Gathered {
    // Of no segment.
    pub(crate) fn none() -> Self
        ensures { result ≡ gathered_of [] }
    {
        Gathered {
            segments: 0,
            chunks: 0,
            sources: 0,
            indexed: false,
        }
    }

    // With one segment more, of so many chunks and of a source, that has an index or none.
    pub(crate) fn with(self, count: u64, source: u64, indexed: bool) -> Self
        requires { (self.segments ≤ box_limit) × (self.chunks + count ≤ chunk_limit) }
        ensures { (result.segments ≡ self.segments + 1) × (result.chunks ≡ self.chunks + count)
            × ((ss : List Segment) (s : Segment) → self ≡ gathered_of ss → count ≡ length s.chunks
            → source ≡ s.source → source ≤ length ss → indexed ≡ has_index s.inner → result ≡ gathered_of (ss ++ (s ∷ []))) }
    {
        Gathered {
            segments: self.segments + 1,
            chunks: self.chunks + count,
            sources: self.sources.max(source.saturating_add(1)),
            indexed: self.indexed | indexed,
        }
    }
}

// Puts the end of a segment of a source, of these flags and so many chunks, to those that the table holds of that.
pub(crate) fn add_end(
    sizes: &mut [u64; ALL_SIZES],
    source: u64,
    flags: u64,
    count: u64,
    end: Position,
)
    ensures { (ss : List Segment) (s : Segment) → source ≡ s.source → s.source < sources → Holds sizes.old ss
        → flags ≡ s.flags → count ≡ length s.chunks → end.0 ≡ end_of s → end_of s ≤ source_limit → Holds sizes.new (ss ++ (s ∷ [])) }
{
    let before = sizes_at(sizes, source);
    put_sizes(sizes, source, before.with(end, gives_size(flags, count)));
}
