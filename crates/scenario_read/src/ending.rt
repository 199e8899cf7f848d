// The end of a scenario's records.
ghost use Rattle.std.specs.Prelude.{◌≡◌, [], IfOk, IfErr};
ghost use Rattle.scenario_read.specs.Additions.{read_of};
ghost use Rattle.scenario_read.specs.Reading.{ended, numbered};
ghost use Rattle.scenario_read.specs.Remaining.{EndsAccepted, EndsRefused, outcome_with};

use crate::cause::{Cause, ScenarioFault};
use crate::part::Part;
use crate::reading::Reading;
use crate::refusal::Refusal;
use crowd_data::{PLAIN_RING, Scenario, first_on_segment};

// The scenario of what was read, where the records end here.
#[tactic(auto, unfolding(crate::specs::Reading::ended))]
fn finish(reading: Reading, count: u32) -> Result<Scenario, ScenarioFault>
    ensures accepted { IfOk result (EndsAccepted (numbered count (ended (read_of reading)))) }
    ensures refused { IfErr result (EndsRefused (numbered count (ended (read_of reading))) count) }
{
    let Some(version) = reading.version else {
        return Err(ScenarioFault::At {
            index: count,
            cause: Cause::NoHeader,
        });
    };
    let Some(steps) = reading.steps else {
        return Err(ScenarioFault::At {
            index: count,
            cause: Cause::NoSteps,
        });
    };
    if let Some(touch) = first_on_segment(reading.agents.items(), reading.segments.items()) {
        return Err(ScenarioFault::At {
            index: count,
            cause: Cause::AgentOnSegment {
                agent: touch.agent,
                segment: touch.segment,
            },
        });
    }
    Ok(Scenario::of(
        version,
        reading.ring.unwrap_or(PLAIN_RING),
        steps,
        reading.agents,
        reading.segments,
        reading.posts,
        reading.goals,
    ))
}

/// What was read, where the records end here: the cause that was found, if any.
#[tactic(auto, unfolding(crate::specs::Reading::outcome_from))]
pub(crate) fn end(
    reading: Reading,
    refusal: Option<Refusal>,
    count: u32,
) -> Result<Part, ScenarioFault>
    ensures accepted { IfOk result (λ part. EndsAccepted (outcome_with (read_of reading) refusal count []) part.scenario) }
    ensures records { IfOk result (λ part. part.records ≡ count) }
    ensures refused { IfErr result (EndsRefused (outcome_with (read_of reading) refusal count []) count) }
{
    match refusal {
        Some(first) => Err(ScenarioFault::At {
            index: first.index,
            cause: first.cause,
        }),
        None => {
            let scenario = finish(reading, count)?;
            Ok(Part {
                scenario,
                records: count,
            })
        }
    }
}
