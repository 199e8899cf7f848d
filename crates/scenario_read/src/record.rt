// One more record of a scenario.
ghost use Rattle.std.specs.Prelude.{◌≡◌, IfSome};
ghost use Rattle.csv.specs.Records.{fields_of};
ghost use Rattle.scenario_read.specs.Additions.{Adds, read_of};
ghost use Rattle.scenario_read.specs.Read.{IsKnown};
ghost use Rattle.scenario_read.specs.Reading.{header_version, with_header, with_kind, with_record};

use crate::agent_record::add_agent;
use crate::cause::Cause;
use crate::fields::{field, is_kind};
use crate::goal_record::add_goal;
use crate::post_record::add_post;
use crate::reading::Reading;
use crate::record_fault::RecordFault;
use crate::ring_record::add_ring;
use crate::segment_record::add_segment;
use crate::steps_record::add_steps;
use crowd_data::{FIRST_VERSION, LATEST_VERSION};
use csv::ByteRecord;

// The version of a record that is a header.
fn header_version(row: &ByteRecord) -> Option<u32>
    ensures value { result ≡ header_version (fields_of row.now) }
    ensures known { IfSome result IsKnown }
{
    if row.len() != 2 || !is_kind(row, b"crowd") {
        return None;
    }
    if field(row, 1) == b"1".as_slice() {
        Some(FIRST_VERSION)
    } else if field(row, 1) == b"2".as_slice() {
        Some(LATEST_VERSION)
    } else {
        None
    }
}

// Adds the header.
fn add_header(reading: &mut Reading, row: &ByteRecord) -> Result<(), RecordFault>
    requires { reading.old.version ≡ None }
    ensures { Adds (read_of reading.old) (read_of reading.new) result (with_header (read_of reading.old) (header_version (fields_of row.now))) }
{
    let Some(version) = header_version(row) else {
        return Err(RecordFault::Refused(Cause::NoHeader));
    };
    reading.version = Some(version);
    Ok(())
}

// Adds one more record behind a header of this version.
#[tactic(auto, unfolding(crate::specs::Reading::with_kind))]
fn add_kind(reading: &mut Reading, version: u32, row: &ByteRecord) -> Result<(), RecordFault>
    requires { reading.old.version ≡ Some version }
    ensures { Adds (read_of reading.old) (read_of reading.new) result (with_kind (read_of reading.old) version (fields_of row.now)) }
{
    if is_kind(row, b"agent") {
        add_agent(reading, version, row)
    } else if is_kind(row, b"segment") {
        add_segment(reading, row)
    } else if is_kind(row, b"steps") {
        add_steps(reading, row)?;
        Ok(())
    } else if is_kind(row, b"post") {
        add_post(reading, row)
    } else if is_kind(row, b"goal") {
        add_goal(reading, row)
    } else if version == LATEST_VERSION && is_kind(row, b"ring") {
        add_ring(reading, row)?;
        Ok(())
    } else {
        Err(RecordFault::Refused(Cause::UnknownKind))
    }
}

/// Adds one more record, or says why it has no place in a scenario.
#[tactic(auto, unfolding(crate::specs::Reading::with_record))]
pub(crate) fn add_record(reading: &mut Reading, row: &ByteRecord) -> Result<(), RecordFault>
    ensures { Adds (read_of reading.old) (read_of reading.new) result (with_record (read_of reading.old) (fields_of row.now)) }
{
    match reading.version {
        None => add_header(reading, row),
        Some(version) => add_kind(reading, version, row),
    }
}
