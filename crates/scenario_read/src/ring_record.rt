// The record of the ring.
ghost use Rattle.std.specs.Prelude.{◌≡◌, true, IfOk, IfErr};
ghost use Rattle.csv.specs.Records.{fields_of};
ghost use Rattle.scenario_read.specs.Additions.{read_of};
ghost use Rattle.scenario_read.specs.RingRecord.{is_ring, ring_of, with_ring};
ghost use Rattle.scenario_read.specs.Values.{and_then};

use crate::cause::Cause;
use crate::reading::Reading;
use crate::values::count_in;
use crowd_data::{FINE_RING, LATEST_VERSION, PLAIN_RING};
use csv::ByteRecord;

#[tactic(auto, unfolding(crate::specs::RingRecord::ring_of))]
fn ring_of(row: &ByteRecord) -> Result<u32, Cause>
    ensures value { result ≡ ring_of (fields_of row.now) }
    ensures known { IfOk result (λ points. is_ring points ≡ true) }
{
    if row.len() != 2 {
        return Err(Cause::FieldCount);
    }
    let points = count_in(row, 1, PLAIN_RING, FINE_RING)?;
    if points == PLAIN_RING || points == FINE_RING {
        Ok(points)
    } else {
        Err(Cause::OutOfRange { field: 1 })
    }
}

/// Adds the ring of a record.
pub(crate) fn add_ring(reading: &mut Reading, row: &ByteRecord) -> Result<(), Cause>
    requires { reading.old.version ≡ Some LATEST_VERSION }
    ensures added { IfOk result (λ _. and_then (ring_of (fields_of row.now)) (with_ring (read_of reading.old) reading.old.ring) ≡ Ok (read_of reading.new)) }
    ensures refused { IfErr result (λ cause. and_then (ring_of (fields_of row.now)) (with_ring (read_of reading.old) reading.old.ring) ≡ Err cause) }
{
    let points = ring_of(row)?;
    if reading.ring.is_some() {
        return Err(Cause::RingTwice);
    }
    reading.ring = Some(points);
    Ok(())
}
