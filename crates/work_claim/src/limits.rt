// Limits of a round.

/// The most claimers that are lent in a round.
pub const MOST_CLAIMERS: u64 = 64;

/// The most rounds of one counter, 2^31.
pub const MOST_ROUNDS: u64 = 2_147_483_648;
