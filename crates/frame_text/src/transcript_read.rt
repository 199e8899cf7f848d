// Reading a transcript.
ghost use Rattle.std.specs.Prelude.{◌≡◌, ◌<◌, ◌^◌, IfOk, IfErr, length, map};
ghost use Rattle.frame_text.specs.ReadTranscript.{HasTranscriptFault, IsRead, scenario_fault, shape_fault};
ghost use Rattle.crowd_data.specs.Scenario.{IsValid};
ghost use Rattle.frame_text.specs.Shape.{posted_of};
ghost use Rattle.frame_text.specs.Shaped.{IsShaped};

use crate::cause::{TranscriptCause, TranscriptFault};
use crate::shape::{ShapeFault, read_frames};
use crate::spelling::misspelt;
use crowd_data::{Moves, Scenario};
use fixed_vec::List;
use scenario_read::{ScenarioFault, read_part};
use std::alloc::Global;

/// A transcript: its scenario, and its frames with the posts that were taken into each.
#[derive(Drop)]
pub struct Transcript {
    pub scenario: Scenario,
    pub frames: List<Moves>,
}

impl From<ScenarioFault> for TranscriptFault {
    ghost from_gives = { λ fault e. e ≡ scenario_fault fault };

    fn from(fault: ScenarioFault) -> Self {
        match fault {
            ScenarioFault::NoMemory => TranscriptFault::NoMemory,
            ScenarioFault::At { index, cause } => TranscriptFault::At {
                index,
                cause: TranscriptCause::Scenario(cause),
            },
        }
    }
}

impl From<ShapeFault> for TranscriptFault {
    ghost from_gives = { λ fault e. e ≡ shape_fault fault };

    fn from(fault: ShapeFault) -> Self {
        match fault {
            ShapeFault::NoMemory => TranscriptFault::NoMemory,
            ShapeFault::At { index } => TranscriptFault::At {
                index,
                cause: TranscriptCause::Shape,
            },
        }
    }
}

/// The transcript whose text the bytes are, fewer than 2^32 of them. Its scenario is that of the records
/// before the first of kind `frame`. `At` names the first cause why they are none, tried in this order:
/// the scenario's, the shape of the frames, the spelling. Whether the frames are those of the scenario's
/// run isn't asked. It takes memory linear in the bytes; `NoMemory` is answered only where memory runs out
/// (documented, not proved).
pub fn read_transcript(alloc: Global, bytes: &[u8]) -> Result<Transcript, TranscriptFault>
    requires { length bytes.now < 2 ^ 32 }
    ensures accepted { IfOk result (λ t. IsRead bytes.now t.scenario (map posted_of t.frames.items)) }
    ensures shaped { IfOk result (λ t. IsValid t.scenario × IsShaped t.scenario (map posted_of t.frames.items)) }
    ensures refused { IfErr result (HasTranscriptFault bytes.now) }
{
    let part = read_part(alloc, bytes, "frame")?;
    let _valid = part.scenario.steps();
    let frames = read_frames(alloc, bytes, &part.scenario, part.records)?;
    match misspelt(bytes, &part.scenario, frames.items()) {
        None => Ok(Transcript {
            scenario: part.scenario,
            frames,
        }),
        Some(lines) => Err(TranscriptFault::At {
            index: lines,
            cause: TranscriptCause::Spelling,
        }),
    }
}
