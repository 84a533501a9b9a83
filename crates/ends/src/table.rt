// What the ends of segments say, in a table that has an entry for each source. Each number of an entry packs a flag
// beside a position, since the table lies in the fixed memory of a small receiver.
ghost use Rattle.std.specs.Prelude.{List, ◌≡◌};
ghost use Rattle.partial.specs.Segments.{Segment};
ghost use Rattle.partial.specs.Sources.{source_count, agreed};
ghost use Rattle.ends.specs.Table.{size_number, sizes_in, SizesPut, Cleared, Holds};

use crate::sizes::Sizes;
use partial::position::Position;

// The numbers of an entry.
const ENTRY: u64 = 2;
// The entries of as many sources as a file may have segments: 25 is asked before sources are counted.
pub const ALL_SIZES: usize = 128;
// Above every position: a number of an entry has a position, and this once more for a flag.
const FLAG: u64 = 1_099_511_627_776;
// The number of the source of a file.
pub const ONE_SOURCE: u64 = 0;

// What a table says of a source; of one past the table as of no segment.
pub fn sizes_at(table: &[u64; ALL_SIZES], source: u64) -> Sizes
    ensures { result ≡ sizes_in table.now source }
{
    if ALL_SIZES as u64 / ENTRY <= source {
        return Sizes::none();
    }
    let at = (ENTRY * source) as usize;
    let size = table[at];
    let largest = table[at + 1];
    Sizes {
        size: (size / FLAG != 0).then_some(Position(size % FLAG)),
        largest: Position(largest % FLAG),
        same: largest / FLAG == 0,
    }
}

// The first number of an entry: the size with the flag, if it is known.
fn size_number(size: Option<Position>) -> u64
    ensures { result ≡ size_number size }
{
    match size {
        Some(size) => size.0 % FLAG + FLAG,
        None => 0,
    }
}

// Puts what is said of a source into its entry, if the table has one.
pub fn put_sizes(table: &mut [u64; ALL_SIZES], source: u64, sizes: Sizes)
    ensures { SizesPut table.old source sizes table.new }
{
    if ALL_SIZES as u64 / ENTRY <= source {
        return;
    }
    let at = (ENTRY * source) as usize;
    table[at] = size_number(sizes.size);
    table[at + 1] = sizes.largest.0 % FLAG + FLAG * (!sizes.same as u64);
}

// Makes each entry that of no segment.
pub fn clear_sizes(table: &mut [u64; ALL_SIZES])
    ensures { Cleared table.new }
{
    *table = [0; ALL_SIZES];
}

// 25, per source: whether what a table holds of each of so many sources agrees.
pub fn all_agree(table: &[u64; ALL_SIZES], many: u64) -> bool
    ensures { (ss : List Segment) → many ≡ source_count ss → Holds table.now ss → result ≡ agreed ss }
{
    for n in 0..many {
        if !sizes_at(table, n).agree() {
            return false;
        }
    }
    true
}
