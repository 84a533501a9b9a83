// The header of a segment, as the writer takes it.
ghost use Rattle.std.specs.Prelude.{◌≡◌};
ghost use Rattle.additions.specs.Addition.{writable};

use partial::flags::LAST_SEGMENT;
use partial::position::Position;

// The fields of `pshd` that a segment is written with.
#[derive(Clone, Copy)]
pub struct SegmentHeader {
    pub offset: Position,
    pub repair: u64,
    pub flags: u32,
}

impl SegmentHeader {
    pub const NO_FLAG: u32 = 0;

    // A header that may be written: it sets last_segment or no flag at all.
    pub fn writable(offset: Position, repair: u64, last: bool) -> Self
        ensures { result ≡ writable offset repair last }
    {
        let flags = if last {
            LAST_SEGMENT
        } else {
            SegmentHeader::NO_FLAG
        };
        SegmentHeader {
            offset,
            repair,
            flags,
        }
    }
}
