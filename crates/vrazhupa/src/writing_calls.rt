// The exported calls that write a file: begin and append.
ghost use Rattle.std.specs.Prelude.{◌≡◌};
ghost use Rattle.additions.specs.Addition.{asks, writable};
ghost use Rattle.additions.specs.Begin.{brand_for};
ghost use Rattle.vrazhupa.specs.Calls.{SaysBegun, SaysAppended};

use crate::answers::say;
use additions::header::SegmentHeader;
use partial::brand::Brand;
use partial::position::Position;
use writing::append::append;
use writing::begin::begin;

// The brand of a mixed file, or that of any other.
fn brand_for(mixed: bool) -> Brand
    ensures { result ≡ brand_for mixed }
{
    if mixed { Brand::Pmff } else { Brand::Paff }
}

// Begins a file, mixed or not.
#[unsafe(no_mangle)]
pub extern "C" fn vrazhupa_begin(
    buffer: &mut [u8],
    mixed: bool,
    url: &[u8],
    mime: &[u8],
    told: &mut [u64; 1],
) -> u64
    ensures { SaysBegun (brand_for mixed) url.now mime.now buffer.old buffer.new told.old told.new result }
{
    say(begin(buffer, brand_for(mixed), url, mime), told)
}

// Appends a segment at a source offset, the last of its source or not, with its good chunks outside `pdat` or not, and
// with `surl` boxes of these texts.
#[unsafe(no_mangle)]
pub extern "C" fn vrazhupa_append(
    buffer: &mut [u8],
    length: u64,
    offset: u64,
    repair: u64,
    last: bool,
    outside: bool,
    list: &[u64],
    bytes: &[u8],
    texts: &[u8],
    lengths: &[u64],
    told: &mut [u64; 1],
) -> u64
    ensures { SaysAppended buffer.old buffer.new length
        (asks (writable (record { 0 = offset }) repair last) outside list.now bytes.now texts.now lengths.now)
        told.old told.new result }
{
    let header = SegmentHeader::writable(Position(offset), repair, last);
    say(
        append(buffer, length, header, outside, list, bytes, texts, lengths),
        told,
    )
}
