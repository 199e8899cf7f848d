// How a writer and its readers are made.
ghost use Rattle.std.specs.Prelude.{◌≡◌, ◌≤◌, All, IfOk, [], length};
ghost use Rattle.crowd_data.specs.Run.{snapshot_of, start_of};
ghost use Rattle.published_frames.specs.History.{IsHistory};
ghost use Rattle.published_frames.specs.Names.{IsNewReader, writer_history, writer_source};

use crate::counts::CONTROLLERS;
use crate::reader::FrameReader;
use crate::writer::FrameWriter;
use crowd_data::{Frame, Scenario};
use fixed_vec::NoMemory;
use std::alloc::Global;
use std::sync::Wait;

/// A writer that shows frame 0 of this scenario, and so many readers. `NoMemory` comes where memory runs out
/// (documented, not proved); a place for a reader that isn't given is that too.
pub fn open<R: Wait>(
    rt: &R,
    alloc: Global,
    scenario: &Scenario,
    first: &Frame,
    readers: u32,
) -> Result<(FrameWriter, Vec<FrameReader>), NoMemory>
    requires first { snapshot_of first.now ≡ start_of scenario.now }
    requires readers { readers ≤ CONTROLLERS }
    ensures scenario { IfOk result (λ opened. (writer_source opened.0).1 ≡ scenario.now) }
    ensures history { IfOk result (λ opened. writer_history opened.0 ≡ []) }
    ensures count { IfOk result (λ opened. length opened.1.items ≡ readers) }
    ensures readers { IfOk result (λ opened. All (IsNewReader (writer_source opened.0) []) opened.1.items) }
{
    let _steps = scenario.steps();
    let mut places: Vec<FrameReader> = match Vec::with_capacity(alloc, readers as usize) {
        Ok(places) => places,
        Err(_) => return Err(NoMemory),
    };
    let room = if readers == 0 { 1 } else { readers as usize };
    let mut writer = FrameWriter::new(rt, alloc, scenario, first, room)?;
    for _ in 0..readers {
        match writer.reader() {
            Ok(reader) => places.push_reserved(reader),
            Err(refused) => {
                writer.close(rt);
                return Err(refused);
            }
        }
    }
    Ok((writer, places))
}
