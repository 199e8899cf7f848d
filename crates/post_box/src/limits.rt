// Limits of a box.

/// The most controllers of a box. They are numbered from 0.
pub const MOST_CONTROLLERS: u32 = 16;

/// The most posts that one call of `Taker::take` appends.
pub const MOST_TAKEN: usize = 65_536;

/// The greatest size of a velocity's coordinate, in units per step.
pub const GREATEST_COORDINATE: u64 = 16_384;
