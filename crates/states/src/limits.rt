/// The minimum number of sectors of a disk.
pub(crate) const LEAST_SECTORS: u32 = 8;

/// The maximum number of preloads of a state.
pub const MOST_PRELOADS: usize = 16;
