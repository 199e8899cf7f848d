//! Reads scenarios: bytes, the records that `csv` gives for them, and what the records stand for. It also
//! generates scenarios from a number.
#![tactic(auto)]

mod agent_record;
mod cause;
mod draws;
mod ending;
mod fields;
mod generator;
mod goal_record;
mod motion;
mod part;
mod post_record;
mod read;
mod reading;
mod record;
mod record_fault;
mod record_reader;
mod refusal;
mod ring_record;
mod segment_record;
mod steps_record;
mod values;

pub use cause::{Cause, ScenarioFault};
pub use fields::{field, is_kind};
pub use generator::generate;
pub use part::Part;
pub use read::{read_part, read_scenario};
pub use record_reader::RecordReader;
pub use values::{count_in, vector_in};
