// Reading a scenario, or the one at the front of a text.
ghost use Rattle.std.specs.Prelude.{◌≡◌, ◌≤◌, ◌<◌, ◌+◌, ◌^◌, ◌∷◌, IfOk, IfErr, length, true};
ghost use Rattle.std.specs.Option.{option_copied};
ghost use Rattle.csv.specs.Records.{fields_of};
ghost use Rattle.scenario_read.specs.Additions.{read_of};
ghost use Rattle.scenario_read.specs.Part.{before, ends_part, part_of};
ghost use Rattle.scenario_read.specs.Reading.{HasFault, IsAccepted};
ghost use Rattle.scenario_read.specs.Records.{Rows, records_of};
ghost use Rattle.scenario_read.specs.Remaining.{outcome_with};
ghost use Rattle.scenario_read.specs.declared.cause.ScenarioFault.TheVariants.{NoMemory as OutOfMemory};

use crate::cause::ScenarioFault;
use crate::ending::end;
use crate::fields::is_kind;
use crate::part::Part;
use crate::reading::Reading;
use crate::record::add_record;
use crate::record_fault::RecordFault;
use crate::record_reader::RecordReader;
use crate::refusal::Refusal;
use crowd_data::Scenario;
use csv::ByteRecord;
use fixed_vec::{List, NoMemory};
use std::alloc::Global;

impl From<NoMemory> for ScenarioFault {
    ghost from_gives = { λ _ e. e ≡ OutOfMemory };

    fn from(_: NoMemory) -> Self {
        ScenarioFault::NoMemory
    }
}

// Adds one more record, unless a cause was found before it.
#[tactic(auto, unfolding(crate::specs::Reading::outcome_from))]
fn add_next(
    reading: &mut Reading,
    refusal: &mut Option<Refusal>,
    index: u32,
    row: &ByteRecord,
) -> Result<(), NoMemory>
    ensures { IfOk result (λ _. (rest : Rows)
        → outcome_with (read_of reading.old) refusal.old index (fields_of row.now ∷ rest) ≡ outcome_with (read_of reading.new) refusal.new (index + 1) rest) }
{
    if refusal.is_some() {
        return Ok(());
    }
    match add_record(reading, row) {
        Ok(()) => Ok(()),
        Err(RecordFault::NoMemory) => Err(NoMemory),
        Err(RecordFault::Refused(cause)) => {
            *refusal = Some(Refusal { index, cause });
            Ok(())
        }
    }
}

// Whether a record is of the kind that ends the part, if there is such a kind.
fn ends_part(row: &ByteRecord, stop: Option<&[u8]>) -> bool
    ensures { result ≡ ends_part (option_copied stop.entry) (fields_of row.now) }
{
    match stop {
        Some(kind) => is_kind(row, kind),
        None => false,
    }
}

// The scenario of the records before the first of a kind, or of all records.
fn read_until(alloc: Global, bytes: &[u8], stop: Option<&[u8]>) -> Result<Part, ScenarioFault>
    requires { length bytes.now < 2 ^ 32 }
    ensures accepted { IfOk result (λ part. IsAccepted (part_of (option_copied stop.entry) (records_of bytes.now)) part.scenario) }
    ensures records { IfOk result (λ part. part.records ≡ length (part_of (option_copied stop.entry) (records_of bytes.now))) }
    ensures refused { IfErr result (HasFault (part_of (option_copied stop.entry) (records_of bytes.now))) }
{
    let mut reader = RecordReader::of(alloc, bytes);
    let mut row = ByteRecord::new(alloc);
    let mut reading = Reading {
        version: None,
        ring: None,
        steps: None,
        agents: List::with_room(alloc, 0)?,
        segments: List::with_room(alloc, 0)?,
        posts: List::with_room(alloc, 0)?,
        goals: List::with_room(alloc, 0)?,
        goal_table: List::with_room(alloc, 0)?,
    };
    let mut refusal: Option<Refusal> = None;
    let mut index = 0u32;
    while reader.read(&mut row)? && !ends_part(&row, stop) {
        add_next(&mut reading, &mut refusal, index, &row)?;
        index += 1;
    }
    end(reading, refusal, index)
}

/// The scenario that bytes stand for, fewer than 2^32 of them. Its records are those that `csv` gives
/// for the bytes. `At` is answered exactly where the records stand for no scenario, with the first cause
/// in the order of the records. `NoMemory` is answered only where memory runs out (documented, not
/// proved).
pub fn read_scenario(alloc: Global, bytes: &[u8]) -> Result<Scenario, ScenarioFault>
    requires { length bytes.now < 2 ^ 32 }
    ensures accepted { IfOk result (IsAccepted (records_of bytes.now)) }
    ensures refused { IfErr result (HasFault (records_of bytes.now)) }
{
    let part = read_until(alloc, bytes, None)?;
    Ok(part.scenario)
}

/// The scenario at the front of bytes, fewer than 2^32 of them: that of the records before the first
/// whose kind is `stop`, or of all records where there is none, with the count of these records. Its
/// faults are those of `read_scenario` over these records.
pub fn read_part(alloc: Global, bytes: &[u8], stop: &str) -> Result<Part, ScenarioFault>
    requires { length bytes.now < 2 ^ 32 }
    ensures accepted { IfOk result (λ part. IsAccepted (before stop.now (records_of bytes.now)) part.scenario) }
    ensures records { IfOk result (λ part. part.records ≡ length (before stop.now (records_of bytes.now))) }
    ensures refused { IfErr result (HasFault (before stop.now (records_of bytes.now))) }
{
    read_until(alloc, bytes, Some(stop.as_bytes()))
}
