// What a seat knows of the round.
use std::collections::LinkedList;

/// What a seat knows of the round. No value of it is made.
pub struct RoundView {
    /// Whether it is the root's seat.
    pub is_root: bool,
    /// The root has one part more than the most claimers, and each claimer that is lent has one of them. A
    /// seat that was taken back has none.
    pub parts: u64,
    /// How many numbers a round has.
    pub pieces: u32,
    /// What the counter was when the round began.
    pub first: u64,
    /// How many rounds the root began.
    pub rounds: u64,
    /// How many claimers the root lent in this round.
    pub lent: u64,
    /// How often this seat itself found no more in this round.
    pub own_ends: u64,
    /// How often this seat and those that it took back found no more in this round.
    pub ends: u64,
    /// The numbers that this seat and those that it took back drew in this round, in no order of time.
    pub drawn: LinkedList<u32>,
}
