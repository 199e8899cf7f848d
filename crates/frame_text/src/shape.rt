// The shape of a transcript: its frames, or the first record that isn't allowed in its place.
ghost use Rattle.std.specs.Prelude.{◌≡◌, ◌<◌, ◌+◌, ◌^◌, [], ◌∷◌, IfOk, IfErr, Ok, All, length, true, map};
ghost use Rattle.csv.specs.Records.{fields_of};
ghost use Rattle.scenario_read.specs.Records.{Rows, records_of};
ghost use Rattle.frame_text.specs.Printed.{FitsMoves};
ghost use Rattle.frame_text.specs.FramesRead.{StopsBy, left_from, so_far};
ghost use Rattle.frame_text.specs.Shape.{frames_of, posted_of};
ghost use Rattle.frame_text.specs.declared.shape.ShapeFault.TheVariants.{NoMemory as OutOfMemory};

use crate::frame_records::{FrameFault, add_record, is_end, set_aside};
use crate::frames::Frames;
use crowd_data::{Moves, Scenario};
use csv::ByteRecord;
use fixed_vec::{List, NoMemory};
use scenario_read::RecordReader;
use std::alloc::Global;

// Why no frames were read: the number of the first record that isn't allowed, or the count of records
// where they end too soon.
pub(crate) enum ShapeFault {
    NoMemory,
    At { index: u32 },
}

impl From<NoMemory> for ShapeFault {
    ghost from_gives = { λ _ e. e ≡ OutOfMemory };

    fn from(_: NoMemory) -> Self {
        ShapeFault::NoMemory
    }
}

// Adds one more record.
#[tactic(auto, unfolding(crate::specs::Shape::frames_from))]
fn add_next(
    alloc: Global,
    scenario: &Scenario,
    first: u32,
    frames: &mut Frames,
    last: &mut Option<u32>,
    index: u32,
    row: &ByteRecord,
) -> Result<(), ShapeFault>
    ensures added { IfOk result (λ _. (rest : Rows)
        → left_from scenario.now first (so_far frames.old) last.old index (fields_of row.now ∷ rest) ≡ left_from scenario.now first (so_far frames.new) last.new (index + 1) rest) }
    ensures refused { IfErr result (λ fault. (rest : Rows)
        → StopsBy fault (left_from scenario.now first (so_far frames.old) last.old index (fields_of row.now ∷ rest))) }
{
    if let Some(end) = *last {
        return Err(ShapeFault::At { index: end });
    }
    if index < first {
        return Ok(());
    }
    if is_end(scenario, frames, row) {
        *last = Some(index);
        return Ok(());
    }
    match add_record(alloc, scenario, frames, row) {
        Ok(()) => Ok(()),
        Err(FrameFault::NoMemory) => Err(ShapeFault::NoMemory),
        Err(FrameFault::NotAllowed) => Err(ShapeFault::At { index }),
    }
}

// All frames, where the records end here.
#[tactic(auto, unfolding(crate::specs::Shape::frames_from))]
fn close(
    alloc: Global,
    scenario: &Scenario,
    first: u32,
    mut frames: Frames,
    last: Option<u32>,
    count: u32,
) -> Result<List<Moves>, ShapeFault>
    ensures accepted { IfOk result (λ all. (left_from scenario.now first (so_far frames) last count [] ≡ Ok (map posted_of all.items)) × All FitsMoves all.items) }
    ensures refused { IfErr result (λ fault. StopsBy fault (left_from scenario.now first (so_far frames) last count [])) }
{
    let _scenario = scenario;
    if last.is_none() {
        return Err(ShapeFault::At { index: count });
    }
    set_aside(alloc, &mut frames)?;
    Ok(frames.whole)
}

/// The frames of a transcript, whose first records, so many of them, are its scenario's. `At` names the
/// first record that isn't allowed in its place, or the count of records where they end too soon.
pub(crate) fn read_frames(
    alloc: Global,
    bytes: &[u8],
    scenario: &Scenario,
    first: u32,
) -> Result<List<Moves>, ShapeFault>
    requires { length bytes.now < 2 ^ 32 }
    ensures accepted { IfOk result (λ all. (frames_of scenario.now first (records_of bytes.now) ≡ Ok (map posted_of all.items)) × All FitsMoves all.items) }
    ensures refused { IfErr result (λ fault. StopsBy fault (frames_of scenario.now first (records_of bytes.now))) }
{
    let mut reader = RecordReader::of(alloc, bytes);
    let mut row = ByteRecord::new(alloc);
    let mut frames = Frames {
        whole: List::with_room(alloc, 0)?,
        begun: 0,
        posts: List::with_room(alloc, 0)?,
        bodies: List::with_room(alloc, 0)?,
    };
    let mut last: Option<u32> = None;
    let mut index = 0u32;
    while reader.read(&mut row)? {
        add_next(alloc, scenario, first, &mut frames, &mut last, index, &row)?;
        index += 1;
    }
    close(alloc, scenario, first, frames, last, index)
}
