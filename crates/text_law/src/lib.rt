//! The text of every valid scenario reads back as that scenario, and the text of every transcript as that
//! transcript, by the definitions of texts and of reading alone. A scenario has one transcript for lists of
//! posts, and each is read. The functions answer nothing; their contracts are the laws.
#![tactic(auto)]

mod run;
mod scenario;
mod transcript;

pub use run::{one_transcript, transcripts_are_accepted};
pub use scenario::reads_back;
pub use transcript::transcript_reads_back;
