// The record of a wall segment.
ghost use Rattle.std.specs.Prelude.{◌≡◌, IfOk};
ghost use Rattle.csv.specs.Records.{fields_of};
ghost use Rattle.crowd_data.specs.Limits.{IsSegment};
ghost use Rattle.scenario_read.specs.Additions.{Adds, read_of};
ghost use Rattle.scenario_read.specs.SegmentRecord.{segment_of, with_segment};
ghost use Rattle.scenario_read.specs.Values.{and_then};

use crate::cause::Cause;
use crate::reading::Reading;
use crate::record_fault::RecordFault;
use crate::values::vector_in;
use crowd_data::{GREATEST_COORDINATE, MOST_SEGMENTS, Segment};
use csv::ByteRecord;

#[tactic(auto, unfolding(crate::specs::SegmentRecord::segment_of))]
fn segment_of(row: &ByteRecord) -> Result<Segment, Cause>
    ensures value { result ≡ segment_of (fields_of row.now) }
    ensures limits { IfOk result IsSegment }
{
    if row.len() != 5 {
        return Err(Cause::FieldCount);
    }
    let a = vector_in(row, 1, 2, GREATEST_COORDINATE)?;
    let b = vector_in(row, 3, 4, GREATEST_COORDINATE)?;
    Ok(Segment { a, b })
}

/// Adds the segment of a record.
pub(crate) fn add_segment(reading: &mut Reading, row: &ByteRecord) -> Result<(), RecordFault>
    ensures { Adds (read_of reading.old) (read_of reading.new) result (and_then (segment_of (fields_of row.now)) (with_segment (read_of reading.old))) }
{
    let segment = segment_of(row)?;
    if reading.segments.items().len() >= MOST_SEGMENTS as usize {
        return Err(RecordFault::Refused(Cause::TooMany));
    }
    reading.segments.reserve(1)?;
    reading.segments.push(segment);
    Ok(())
}
