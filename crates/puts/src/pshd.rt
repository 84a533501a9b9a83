// The `pshd` box, as it is written.
ghost use Rattle.std.specs.Prelude.{ℕ, ◌≡◌};
ghost use Rattle.additions.specs.Append.{version_for};
ghost use Rattle.partial.specs.Reading.{offset_width_of};
ghost use Rattle.adding.specs.Layout.{PshdLaid};
ghost use Rattle.puts.specs.Boxes.{pshd_box};
ghost use Rattle.puts.specs.Pieces.{PutsPieces};

use crate::pieces::{put_field, put_front};
use adding::layout::Layout;
use additions::header::SegmentHeader;
use boxes::kinds::PSHD;
use numerals::place::Place;

// The version of a `pshd` with a source offset of that width.
fn version_of(width: u64) -> u64
    ensures { (offset : ℕ) → width ≡ offset_width_of (version_for offset) → result ≡ version_for offset }
{
    if width == 4 { 0 } else { 1 }
}

// Puts `pshd`: of the flags last_segment and no other.
pub(crate) fn put_pshd(buffer: &mut [u8], at: Place, header: SegmentHeader, layout: Layout) -> Place
    ensures { PshdLaid header.offset.0 layout
        → PutsPieces buffer.old at.0 (pshd_box header) buffer.new result.0 }
{
    let offset = header.offset;
    let width = layout.offset_width;
    let version = put_front(buffer, at, PSHD, layout.pshd);
    let flags = put_field(buffer, version, 1, version_of(width));
    let source = put_field(buffer, flags, 3, header.flags as u64 % 2);
    let repair = put_field(buffer, source, width as usize, offset.0);
    put_field(buffer, repair, 8, header.repair)
}
