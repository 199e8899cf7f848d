//! The texts of a scenario and of a transcript, line by line, and transcripts read back from their texts.
#![tactic(auto)]

mod agent_line;
mod cause;
mod frame_records;
mod frames;
mod limits;
mod line;
mod printed;
mod shape;
mod spelling;
mod transcript;
mod transcript_read;

pub use cause::{TranscriptCause, TranscriptFault};
pub use limits::{GREATEST_PLACE, GREATEST_RELIEF, GREATEST_SEQ};
pub use line::Line;
pub use transcript::{write_end, write_frame, write_scenario};
pub use transcript_read::{Transcript, read_transcript};
