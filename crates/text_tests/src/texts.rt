// Scenarios read and written. The callers learn nothing of these helpers, so that no proof computes on a text.
use crowd_data::{Agent, Goal, Scenario, ScriptPost, Segment};
use fixed_vec::List;
use frame_text::write_scenario;
use outside_io::MemSink;
use scenario_read::{Cause, Part, ScenarioFault, read_part, read_scenario};
use std::alloc::Global;
use std::test::Fail;

pub(crate) fn read_some(alloc: Global, input: &[u8]) -> Result<Scenario, ScenarioFault> {
    if input.len() < 1 << 32 {
        read_scenario(alloc, input)
    } else {
        Err(ScenarioFault::NoMemory)
    }
}

pub(crate) fn written(alloc: Global, scenario: &Scenario) -> Result<MemSink, Fail> {
    let mut out = MemSink::open(alloc, 1000, List::with_room(alloc, 0)?)?;
    write_scenario(&mut out, scenario)?;
    Ok(out)
}

/// Whether the scenario of a text is written as `wanted`.
pub(crate) fn is_written_as(alloc: Global, text: &[u8], wanted: &[u8]) -> Result<bool, Fail> {
    let scenario = read_some(alloc, text)?;
    Ok(is_same(written(alloc, &scenario)?.held(), wanted))
}

/// The numbers that a text gives: its version, its ring and its steps.
pub(crate) fn head_of(alloc: Global, text: &[u8]) -> Result<[u32; 3], Fail> {
    let scenario = read_some(alloc, text)?;
    Ok([scenario.version(), scenario.ring(), scenario.steps()])
}

/// How many controllers a text asks for.
pub(crate) fn controllers_of(alloc: Global, text: &[u8]) -> Result<u32, Fail> {
    Ok(read_some(alloc, text)?.controllers())
}

/// Whether a text stands for these agents.
pub(crate) fn has_agents(alloc: Global, text: &[u8], wanted: &[Agent]) -> Result<bool, Fail> {
    Ok(read_some(alloc, text)?.agents() == wanted)
}

/// Whether a text stands for agents of these weights.
pub(crate) fn has_weights(alloc: Global, text: &[u8], wanted: &[u32]) -> Result<bool, Fail> {
    let scenario = read_some(alloc, text)?;
    let agents = scenario.agents();
    if agents.len() != wanted.len() {
        return Ok(false);
    }
    for i in 0..wanted.len() {
        if agents[i].weight != wanted[i] {
            return Ok(false);
        }
    }
    Ok(true)
}

/// Whether a text stands for these segments.
pub(crate) fn has_segments(alloc: Global, text: &[u8], wanted: &[Segment]) -> Result<bool, Fail> {
    Ok(read_some(alloc, text)?.segments() == wanted)
}

/// Whether a text stands for these posts.
pub(crate) fn has_posts(alloc: Global, text: &[u8], wanted: &[ScriptPost]) -> Result<bool, Fail> {
    Ok(read_some(alloc, text)?.posts() == wanted)
}

/// Whether a text stands for these goals.
pub(crate) fn has_goals(alloc: Global, text: &[u8], wanted: &[Goal]) -> Result<bool, Fail> {
    Ok(read_some(alloc, text)?.goals() == wanted)
}

pub(crate) fn is_same(a: &[u8], b: &[u8]) -> bool {
    a == b
}

fn part_of(alloc: Global, input: &[u8], kind: &str) -> Result<Part, ScenarioFault> {
    if input.len() < 1 << 32 {
        read_part(alloc, input, kind)
    } else {
        Err(ScenarioFault::NoMemory)
    }
}

/// How many records stand before the first of this kind, and the steps that they tell.
pub(crate) fn part_head_of(alloc: Global, input: &[u8], kind: &str) -> Result<[u32; 2], Fail> {
    let part = part_of(alloc, input, kind)?;
    Ok([part.records as u32, part.scenario.steps()])
}

pub(crate) fn part_fault_of(alloc: Global, input: &[u8], kind: &str) -> Option<ScenarioFault> {
    part_of(alloc, input, kind).err()
}

pub(crate) fn fault_of(alloc: Global, input: &[u8]) -> Option<ScenarioFault> {
    read_some(alloc, input).err()
}

/// Whether a text is refused at this record for this cause.
pub(crate) fn is_refused(alloc: Global, input: &[u8], index: u32, cause: Cause) -> bool {
    fault_of(alloc, input) == at(index, cause)
}

/// A text, the record at which it is refused, and the cause.
pub(crate) type Refusal<'a> = (&'a [u8], u32, Cause);

/// The first of these texts, if any, that isn't refused so.
pub(crate) fn first_not_refused(alloc: Global, rows: &[Refusal]) -> Option<usize> {
    for (place, (text, index, cause)) in rows.iter().enumerate() {
        if !is_refused(alloc, text, *index, *cause) {
            return Some(place);
        }
    }
    None
}

/// Whether a text stands for a scenario.
pub(crate) fn is_accepted(alloc: Global, input: &[u8]) -> bool {
    read_some(alloc, input).is_ok()
}

pub(crate) fn at(index: u32, cause: Cause) -> Option<ScenarioFault> {
    Some(ScenarioFault::At { index, cause })
}
