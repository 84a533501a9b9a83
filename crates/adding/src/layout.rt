// How the boxes are laid out that append adds. A size past the file limit counts as one more than that, so that no sum
// wraps.
ghost use Rattle.std.specs.Prelude.{◌+◌, ◌≤◌, min, Bool, List, ◌≡◌, length};
ghost use Rattle.additions.specs.Addition.{Addition, Item, surls};
ghost use Rattle.additions.specs.Append.{placed, length_size_of, offset_size_of, ploc_body, version_for, stored, surl_boxes};
ghost use Rattle.partial.specs.Limits.{file_limit};
ghost use Rattle.partial.specs.Reading.{offset_width_of};
ghost use Rattle.adding.specs.Counts.{saying, Whole, Sorted};
ghost use Rattle.adding.specs.Layout.{Laid};
ghost use Rattle.adding.specs.Texts.{Texted};

use crate::counts::Counts;
use crate::texts::Texts;
use boxes::framing::FRONT_SIZE;
use numerals::numbers::{Offset, width_of, width_of_offset};
use outside::chunks::Outside;
use partial::limits::FILE_LIMIT;
use partial::position::Position;

// The widest source offset of a `pshd` of version 0.
const VERSION_0_LAST: u64 = 0xffff_ffff;

// Version, flags and the repair time of `pshd`.
const PSHD_REST: u64 = 12;

// Version, flags, both widths, the data reference index and the chunk count of `ploc`.
const PLOC_REST: u64 = 9;

// The header of a `surl`, its version and flags, and the zero bytes that close its two texts.
const SURL_REST: u64 = FRONT_SIZE + 6;

// Both widths of `ploc`, the bytes of `source_byte_offset`, the bodies of `pshd`, `ploc` and `pseg`, and all that is
// added.
#[derive(Clone, Copy)]
pub struct Layout {
    pub length_size: usize,
    pub offset_size: usize,
    pub offset_width: u64,
    pub pshd: u64,
    pub ploc: u64,
    pub pseg: u64,
    pub added: u64,
}

// A size, or one more than a file may have where it is larger.
fn within(size: u64) -> u64
    ensures { result ≡ min size (file_limit + 1) }
{
    size.min(FILE_LIMIT + 1)
}

// The least width that holds every size.
fn length_size(counts: Counts) -> usize
    ensures { (result ≤ 8) × ((right outside : Bool) (is : List Item) → Whole is (saying right counts) → result ≡ length_size_of (placed outside is)) }
{
    width_of(counts.largest)
}

// The least width that holds every offset: none lies farther back than the first that goes into `pdat`, or else the
// first outside, with all data behind it.
fn offset_size(counts: Counts) -> usize
    ensures { (result ≤ 8) × ((right outside : Bool) (is : List Item) → Whole is (saying right counts) → result ≡ offset_size_of (placed outside is)) }
{
    width_of_offset(Offset::Back(counts.bytes))
}

// The bytes of `source_byte_offset`: four where they hold it, else eight.
fn offset_width(offset: Position) -> u64
    ensures { (result ≤ 8) × (result ≡ offset_width_of (version_for offset.0)) }
{
    if offset.0 <= VERSION_0_LAST { 4 } else { 8 }
}

// The body of `ploc`, by its two widths.
fn ploc_size(counts: Counts, size: usize, offset: usize) -> u64
    requires { (size ≤ 8) × (offset ≤ 8) }
    ensures { (result ≤ file_limit + 1) × ((right outside : Bool) (is : List Item) → Whole is (saying right counts)
        → size ≡ length_size_of (placed outside is) → offset ≡ offset_size_of (placed outside is)
        → result ≡ min (length (ploc_body (placed outside is))) (file_limit + 1)) }
{
    // Each item has a byte at least.
    let items = within(counts.items);
    let present = within(counts.present);
    within(PLOC_REST + items * (1 + size as u64) + present * offset as u64)
}

// The data: that in a `pdat` with its header, if any goes there, and that outside.
fn data_size(counts: Counts, outside: Outside) -> u64
    ensures { (result ≤ file_limit + 1) × ((right : Bool) (a : Addition) → Sorted a (saying right counts) outside → result ≡ min (length (stored a)) (file_limit + 1)) }
{
    let bytes = within(counts.bytes);
    if counts.present == outside.chunks {
        return bytes;
    }
    within(FRONT_SIZE + bytes)
}

// The `surl` boxes, with their texts.
fn surls_size(texts: Texts) -> u64
    ensures { (result ≤ file_limit + 1) × ((a : Addition) → Texted a texts → result ≡ min (length (surl_boxes (surls a))) (file_limit + 1)) }
{
    within(within(texts.surls) * SURL_REST + within(texts.bytes))
}

// The layout of what append adds: the data and the `pseg`, which holds `pshd`, `ploc` and the `surl` boxes. It is the same
// whatever the counts say of whether the items are right.
pub fn layout_of(counts: Counts, outside: Outside, texts: Texts, offset: Position) -> Layout
    ensures { (right : Bool) (a : Addition) → Sorted a (saying right counts) outside → Texted a texts → offset.0 ≡ a.source_offset → Laid a result }
{
    let sizes = length_size(counts);
    let offsets = offset_size(counts);
    let width = offset_width(offset);
    let pshd = PSHD_REST + width;
    let ploc = ploc_size(counts, sizes, offsets);
    let pseg = within(FRONT_SIZE + pshd + FRONT_SIZE + ploc + surls_size(texts));
    let added = within(data_size(counts, outside) + FRONT_SIZE + pseg);
    Layout {
        length_size: sizes,
        offset_size: offsets,
        offset_width: width,
        pshd,
        ploc,
        pseg,
        added,
    }
}
