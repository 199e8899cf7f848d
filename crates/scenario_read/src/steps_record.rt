// The record of the steps.
ghost use Rattle.std.specs.Prelude.{◌≡◌, ◌≤◌, IfOk, IfErr};
ghost use Rattle.csv.specs.Records.{fields_of};
ghost use Rattle.scenario_read.specs.Additions.{read_of};
ghost use Rattle.scenario_read.specs.StepsRecord.{steps_of, with_steps};
ghost use Rattle.scenario_read.specs.Values.{and_then};

use crate::cause::Cause;
use crate::reading::Reading;
use crate::values::count_in;
use crowd_data::MOST_STEPS;
use csv::ByteRecord;

#[tactic(auto, unfolding(crate::specs::StepsRecord::steps_of))]
fn steps_of(row: &ByteRecord) -> Result<u32, Cause>
    ensures value { result ≡ steps_of (fields_of row.now) }
    ensures limits { IfOk result (λ n. n ≤ MOST_STEPS) }
{
    if row.len() != 2 {
        return Err(Cause::FieldCount);
    }
    count_in(row, 1, 0, MOST_STEPS)
}

/// Adds the steps of a record.
pub(crate) fn add_steps(reading: &mut Reading, row: &ByteRecord) -> Result<(), Cause>
    ensures added { IfOk result (λ _. and_then (steps_of (fields_of row.now)) (with_steps (read_of reading.old) reading.old.steps) ≡ Ok (read_of reading.new)) }
    ensures refused { IfErr result (λ cause. and_then (steps_of (fields_of row.now)) (with_steps (read_of reading.old) reading.old.steps) ≡ Err cause) }
{
    let steps = steps_of(row)?;
    if reading.steps.is_some() {
        return Err(Cause::StepsTwice);
    }
    reading.steps = Some(steps);
    Ok(())
}
