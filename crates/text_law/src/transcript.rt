// Texts of transcripts.
ghost use Rattle.std.specs.Prelude.{map};
ghost use Rattle.frame_text.specs.Shape.{posted_of};
ghost use Rattle.text_law.specs.TranscriptReadBack.{IsTranscriptText, TranscriptReadsBack};

use crowd_data::{Moves, Scenario};

/// The text of every valid scenario, of frames of a transcript's shape and of their end reads back as that
/// transcript, and has no cause. It is the text that a run's transcript is defined to be.
pub fn transcript_reads_back(scenario: &Scenario, frames: &[Moves])
    ensures reads_back { TranscriptReadsBack scenario.now (map posted_of frames.now) }
    ensures text { IsTranscriptText scenario.now (map posted_of frames.now) }
{
    let _ = scenario.steps();
    let _ = frames.len();
}
