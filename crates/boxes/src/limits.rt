// The sizes that the box layer holds to.

// The most boxes in one container.
pub const BOX_LIMIT: u64 = 512;
