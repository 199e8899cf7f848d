// The record of an agent.
ghost use Rattle.std.specs.Prelude.{◌≡◌, IfOk};
ghost use Rattle.csv.specs.Records.{fields_of};
ghost use Rattle.crowd_data.specs.Limits.{IsAgent, IsPosition, IsVelocity, IsWeight};
ghost use Rattle.scenario_read.specs.Additions.{Adds, read_of};
ghost use Rattle.scenario_read.specs.AgentRecord.{agent_fields, agent_of, agent_with, motion_in, weight_in, with_agent};
ghost use Rattle.scenario_read.specs.Values.{and_then};

use crate::cause::Cause;
use crate::motion::Motion;
use crate::reading::Reading;
use crate::record_fault::RecordFault;
use crate::values::{count_in, vector_in};
use crowd_data::{
    Agent, FIRST_VERSION, GREATEST_COORDINATE, GREATEST_HORIZON, GREATEST_RADIUS, GREATEST_RANGE,
    GREATEST_SPEED, GREATEST_WEIGHT, MOST_AGENTS, MOST_NEIGHBOURS,
};
use csv::ByteRecord;

#[tactic(auto, unfolding(crate::specs::AgentRecord::motion_in))]
fn motion_in(row: &ByteRecord) -> Result<Motion, Cause>
    ensures value { result ≡ motion_in (fields_of row.now) }
    ensures limits { IfOk result (λ m. IsPosition m.pos × IsVelocity m.vel × IsVelocity m.pref) }
{
    let pos = vector_in(row, 1, 2, GREATEST_COORDINATE)?;
    let vel = vector_in(row, 3, 4, GREATEST_SPEED)?;
    let pref = vector_in(row, 5, 6, GREATEST_SPEED)?;
    Ok(Motion { pos, vel, pref })
}

// The weight of an agent of this version.
#[tactic(auto, unfolding(crate::specs::AgentRecord::weight_in))]
fn weight_in(version: u32, row: &ByteRecord) -> Result<u32, Cause>
    ensures value { result ≡ weight_in version (fields_of row.now) }
    ensures limits { IfOk result IsWeight }
    ensures plain { IfOk result (λ weight. version ≡ FIRST_VERSION → weight ≡ 1) }
{
    if version == FIRST_VERSION {
        Ok(1)
    } else {
        count_in(row, 13, 1, GREATEST_WEIGHT)
    }
}

// The agent of a record that has this motion.
#[tactic(auto, unfolding(crate::specs::AgentRecord::agent_with))]
fn agent_with(version: u32, row: &ByteRecord, motion: Motion) -> Result<Agent, Cause>
    requires pos { IsPosition motion.pos }
    requires vel { IsVelocity motion.vel }
    requires pref { IsVelocity motion.pref }
    ensures value { result ≡ agent_with version (fields_of row.now) motion }
    ensures limits { IfOk result IsAgent }
    ensures plain { IfOk result (λ agent. version ≡ FIRST_VERSION → agent.weight ≡ 1) }
{
    let radius = count_in(row, 7, 1, GREATEST_RADIUS)?;
    let speed = count_in(row, 8, 0, GREATEST_SPEED)?;
    let range = count_in(row, 9, 0, GREATEST_RANGE)?;
    let most = count_in(row, 10, 0, MOST_NEIGHBOURS)?;
    let horizon = count_in(row, 11, 1, GREATEST_HORIZON)?;
    let wall_horizon = count_in(row, 12, 1, GREATEST_HORIZON)?;
    let weight = weight_in(version, row)?;
    Ok(Agent {
        pos: motion.pos,
        vel: motion.vel,
        pref: motion.pref,
        radius,
        speed,
        range,
        most,
        horizon,
        wall_horizon,
        weight,
    })
}

// How many fields the record of an agent has.
fn agent_fields(version: u32) -> usize
    ensures { result ≡ agent_fields version }
{
    if version == FIRST_VERSION { 13 } else { 14 }
}

#[tactic(auto, unfolding(crate::specs::AgentRecord::agent_of))]
fn agent_of(version: u32, row: &ByteRecord) -> Result<Agent, Cause>
    ensures value { result ≡ agent_of version (fields_of row.now) }
    ensures limits { IfOk result IsAgent }
    ensures plain { IfOk result (λ agent. version ≡ FIRST_VERSION → agent.weight ≡ 1) }
{
    if row.len() != agent_fields(version) {
        return Err(Cause::FieldCount);
    }
    let motion = motion_in(row)?;
    agent_with(version, row, motion)
}

/// Adds the agent of a record. It has no goal yet.
pub(crate) fn add_agent(
    reading: &mut Reading,
    version: u32,
    row: &ByteRecord,
) -> Result<(), RecordFault>
    requires { reading.old.version ≡ Some version }
    ensures { Adds (read_of reading.old) (read_of reading.new) result (and_then (agent_of version (fields_of row.now)) (with_agent (read_of reading.old))) }
{
    let agent = agent_of(version, row)?;
    if reading.agents.items().len() >= MOST_AGENTS as usize {
        return Err(RecordFault::Refused(Cause::TooMany));
    }
    reading.agents.reserve(1)?;
    reading.goal_table.reserve(1)?;
    reading.agents.push(agent);
    reading.goal_table.push(false);
    Ok(())
}
