// The tables of a pass that are the caller's own.
ghost use Rattle.std.specs.Prelude.{ℕ, List, []};
ghost use Rattle.partial.specs.Heading.{Heading};
ghost use Rattle.gathering.specs.Noted.{Blank, Noted};

use ends::table::{ALL_SIZES, clear_sizes};
use sources::lists::{ALL_LISTS, clear_lists};
use sources::numbers::{ALL_SOURCES, clear_sources};

// What the ends of segments say of each source, the source of each segment, and where the list of URLs of each source
// stands.
#[derive(Drop)]
pub struct SourceTables {
    pub sizes: [u64; ALL_SIZES],
    pub sources: [u64; ALL_SOURCES],
    pub lists: [u64; ALL_LISTS],
}

impl SourceTables {
    // Of no segment.
    pub fn new() -> Self
        ensures { Blank result × ((f : List ℕ) (h : Heading) → Noted f h result []) }
    {
        SourceTables {
            sizes: [0; ALL_SIZES],
            sources: [0; ALL_SOURCES],
            lists: [0; ALL_LISTS],
        }
    }

    // Makes them those of no segment.
    pub fn clear(&mut self)
        ensures { Blank self.new × ((f : List ℕ) (h : Heading) → Noted f h self.new []) }
    {
        clear_sizes(&mut self.sizes);
        clear_sources(&mut self.sources);
        clear_lists(&mut self.lists);
    }
}
