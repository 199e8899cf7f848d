// Texts of runs.
ghost use Rattle.text_law.specs.RunText.{OneTranscript, ScriptedIsAccepted, TranscriptsAreAccepted};

use crowd_data::Scenario;

/// A scenario has one transcript for lists of posts.
pub fn one_transcript(scenario: &Scenario)
    ensures { OneTranscript scenario.now }
{
    let _ = scenario.steps();
}

/// Every transcript of a valid scenario, with posts within their limits, is a text that is read as that
/// scenario and its frames, and has no cause. So is the one with the scripted posts, which a run prints.
pub fn transcripts_are_accepted(scenario: &Scenario)
    ensures posts { TranscriptsAreAccepted scenario.now }
    ensures scripted { ScriptedIsAccepted scenario.now }
{
    let _ = scenario.steps();
}
