// The sizes that partial files hold to. Boxes in one container are limited in the box layer.

// The most bytes of a file.
pub const FILE_LIMIT: u64 = 1_073_741_824;
// The most segments of a file.
pub const SEGMENT_LIMIT: u64 = 64;
// The most chunks of a file.
pub const CHUNK_LIMIT: u64 = 1_024;
// The highest source position or end.
pub const SOURCE_LIMIT: u64 = 1_099_511_627_775;
// The most sources of a file.
pub const LAYER_LIMIT: u64 = 8;
// The most bytes that the map program takes.
pub const PROGRAM_LIMIT: u64 = 65_536;
// The most levels of indexed boxes.
pub const LEVEL_LIMIT: u64 = 8;
