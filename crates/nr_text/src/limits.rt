//! The limits of what lines and words open: scripts, schedules and loads. Those of the maps that
//! programs open are no lower.

/// The most keys of a map.
pub const MAX_KEYS: u32 = 65_536;

/// The most slots of a map.
pub const MAX_SLOTS: u32 = 131_072;

/// The most readers of a map.
pub const MAX_READERS: u32 = 1_024;

/// The largest number at which the requests of a key may begin.
pub const MAX_NUMBER: u64 = 4_194_303;

/// The most rows of a key.
pub const MAX_ROWS: u32 = 255;
