//! The laws of steps and runs, by the plain definitions alone: every step and every run is safe, whatever is
//! posted; each frame with a step left has a next one; and advice, next frames and runs have one value. Each
//! function answers nothing; its contract is the law.
#![tactic(auto)]

mod safety;
mod value;

pub use safety::{every_run_is_safe, every_step_is_safe};
pub use value::{next_exists, one_advice, one_next, one_run};
