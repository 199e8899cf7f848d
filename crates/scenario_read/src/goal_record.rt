// The record of a goal.
ghost use Rattle.std.specs.Prelude.{◌≡◌, ◌≤◌, IfOk};
ghost use Rattle.csv.specs.Records.{fields_of};
ghost use Rattle.crowd_data.specs.Limits.{IsPosition};
ghost use Rattle.scenario_read.specs.Additions.{Adds, read_of};
ghost use Rattle.scenario_read.specs.GoalRecord.{goal_of, with_goal};
ghost use Rattle.scenario_read.specs.Values.{and_then};

use crate::cause::Cause;
use crate::reading::Reading;
use crate::record_fault::RecordFault;
use crate::values::{count_in, vector_in};
use crowd_data::{GREATEST_AGENT, GREATEST_CONTROLLER, GREATEST_COORDINATE, GREATEST_SPEED, Goal};
use csv::ByteRecord;

#[tactic(auto, unfolding(crate::specs::GoalRecord::goal_of))]
fn goal_of(row: &ByteRecord) -> Result<Goal, Cause>
    ensures value { result ≡ goal_of (fields_of row.now) }
    ensures controller { IfOk result (λ goal. goal.controller ≤ GREATEST_CONTROLLER) }
    ensures at { IfOk result (λ goal. IsPosition goal.at) }
    ensures pace { IfOk result (λ goal. goal.pace ≤ GREATEST_SPEED) }
{
    if row.len() != 6 {
        return Err(Cause::FieldCount);
    }
    let controller = count_in(row, 1, 0, GREATEST_CONTROLLER)?;
    let agent = count_in(row, 2, 0, GREATEST_AGENT)?;
    let at = vector_in(row, 3, 4, GREATEST_COORDINATE)?;
    let pace = count_in(row, 5, 0, GREATEST_SPEED)?;
    Ok(Goal {
        controller,
        agent,
        at,
        pace,
    })
}

/// Adds the goal of a record. Whether its agent has one is looked up in the table.
pub(crate) fn add_goal(reading: &mut Reading, row: &ByteRecord) -> Result<(), RecordFault>
    ensures { Adds (read_of reading.old) (read_of reading.new) result (and_then (goal_of (fields_of row.now)) (with_goal (read_of reading.old))) }
{
    let goal = goal_of(row)?;
    let agent = goal.agent as usize;
    if agent >= reading.agents.items().len() {
        return Err(RecordFault::Refused(Cause::NoSuchAgent));
    }
    if reading.goal_table.items()[agent] {
        return Err(RecordFault::Refused(Cause::GoalTwice));
    }
    reading.goals.reserve(1)?;
    reading.goals.push(goal);
    reading.goal_table.set(agent, true);
    Ok(())
}
