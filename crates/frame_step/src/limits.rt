// How the work of a step is cut.

/// The most workers of a step, the calling thread among them.
pub const MOST_WORKERS: u32 = 64;

/// How many agents make a piece. The last piece may have fewer.
pub(crate) const AGENTS_PER_PIECE: usize = 32;

/// The fewest agents that are worth a worker: a step takes some 100 microseconds for them, and a thread's
/// start up to 60.
pub(crate) const AGENTS_PER_WORKER: usize = 64;

/// The number of worker 0 at a gate; that of worker j is higher by j.
pub(crate) const FIRST_WORKER: u32 = 16;
