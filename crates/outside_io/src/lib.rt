//! Bytes in and bytes out: what gives and what takes them, each with a count of its faults; reading to
//! the end and writing the whole; and ends in memory that fail in chosen calls.
#![tactic(auto)]

mod bytes;
mod failed;
mod gate;
mod memory;
mod sink;
mod source;
mod standard;
mod whole;

pub use failed::Failed;
pub use gate::{Gate, OpenGate};
pub use memory::{MemSink, MemSource};
pub use sink::Sink;
pub use source::Source;
pub use standard::{StdSink, StdSource};
pub use whole::{ReadAllFault, read_all, write_whole};
