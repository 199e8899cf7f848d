//! The planar program: the common point of half-planes that is nearest to a whole point, and the least
//! relief of the soft ones that leaves a common point.
#![tactic(auto)]

mod certificate;
mod meeting;
mod optimum;
mod relief;

pub use meeting::meets;
pub use optimum::nearest;
pub use relief::{GREATEST_RELIEF, Relief, least_relief};
