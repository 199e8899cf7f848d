// Limits of a command's numbers, all inclusive.

/// The most threads that share a step.
pub const MOST_WORKERS: u32 = 64;

/// The greatest number of a generated crowd.
pub const GREATEST_SAMPLE: u32 = 65_535;

/// The most agents of a generated crowd.
pub const MOST_AGENTS: u32 = 10_000;

/// The most steps of a generated crowd.
pub const MOST_STEPS: u32 = 100_000;
