// The flags of a segment's header.

// Flag 0x000001: this segment is the last of its source.
pub const LAST_SEGMENT: u32 = 1;
