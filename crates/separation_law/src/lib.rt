//! The laws by which discs stay apart and off segments: what the half-planes of a pair, the speeds of a far
//! pair and the wall plane of a segment are worth. Each function answers nothing; its contract is the law,
//! in squares of whole numbers, for every fraction of the way.
#![tactic(auto)]

mod far;
mod pair;
mod wall;

pub use far::far_pair;
pub use pair::{pair_apart, pair_apart_at_end};
pub use wall::off_segment;
