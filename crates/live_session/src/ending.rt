// The last frame, and the reads after it.
ghost use Rattle.std.specs.Prelude.{◌≡◌, ◌<◌, ◌≤◌, All, IfErr, IfSome, OnOk, Option, length};
ghost use Rattle.published_frames.specs.declared.reader.FrameReader.{FrameReader};
ghost use Rattle.published_frames.specs.History.{StartsWith};
ghost use Rattle.published_frames.specs.Names.{reader_seen, reader_source, writer_history, writer_source};
ghost use Rattle.published_frames.specs.declared.counts.TheConstants.{CONTROLLERS};
ghost use Rattle.post_box.specs.Ends.{IsTakerOf};
ghost use Rattle.outside_io.specs.Sinks.{sink_state};
ghost use Rattle.live_session.specs.LiveText.{WroteLive, WroteLivePart};
ghost use Rattle.live_session.specs.Session.{IsClosing};

use crate::desk::Desk;
use crate::fault::LiveFault;
use crate::gathering::append;
use crate::joining::parted;
use crate::steered::Steered;
use crate::stepping::advance;
use frame_text::write_end;
use outside_io::{Gate, Sink};
use post_box::{PostBox, Taker, finish};
use published_frames::{FrameReader, FrameWriter};
use run_text::list_script;
use std::alloc::Global;
use std::sync::Wait;
use std::thread::Threads;

// The reader of the controller of this number learns of the last frame, and reads once. So what it had seen is a beginning
// of what was published.
fn read_last<R: Wait>(rt: &R, writer: &FrameWriter, number: u32, mut reader: FrameReader)
    requires number { number < CONTROLLERS }
    requires source { reader_source reader ≡ writer_source writer.now }
    requires last { length (writer_history writer.now) ≡ (writer_source writer.now).1.steps }
    ensures { StartsWith (writer_history writer.now) (reader_seen reader) }
{
    reader.learn(writer.tell(number));
    let _reader = reader.read(rt).leave();
}

// The same where there is a reader.
fn read_last_if_any<R: Wait>(rt: &R, writer: &FrameWriter, number: u32, reader: Option<FrameReader>)
    requires number { number < CONTROLLERS }
    requires source { IfSome reader (λ r. reader_source r ≡ writer_source writer.now) }
    requires last { length (writer_history writer.now) ≡ (writer_source writer.now).1.steps }
    ensures { IfSome reader (λ r. StartsWith (writer_history writer.now) (reader_seen r)) }
{
    match reader {
        Some(reader) => read_last(rt, writer, number, reader),
        None => {}
    }
}

// Each reader, those of the controllers in order of number, learns of the last frame and reads once.
fn read_last_all<R: Wait>(rt: &R, writer: &FrameWriter, readers: Vec<Option<FrameReader>>)
    requires few { length readers.items ≤ CONTROLLERS }
    requires source { All (λ (reader : Option FrameReader). IfSome reader (λ r. reader_source r ≡ writer_source writer.now)) readers.items }
    requires last { length (writer_history writer.now) ≡ (writer_source writer.now).1.steps }
    ensures { All (λ (reader : Option FrameReader). IfSome reader (λ r. StartsWith (writer_history writer.now) (reader_seen r))) readers.items }
{
    let mut number = 0;
    for reader in readers {
        read_last_if_any(rt, writer, number, reader);
        number += 1;
    }
}

/// Ends a box without its posters.
pub(crate) fn end_box<R: Wait>(rt: &R, alloc: Global, posts: PostBox, taker: Taker)
    requires { IsTakerOf posts taker }
{
    match finish(rt, alloc, posts, Vec::new(alloc), taker) {
        Ok(_) => {}
        Err(_) => {}
    }
}

/// The last frame, with all posts that are left; then each reader reads it, and the transcript ends.
pub(crate) fn last_frame<R: Threads + Wait + Sync, T: Sink, G: Gate + Sync>(
    rt: &R,
    alloc: Global,
    gate: &G,
    posts: PostBox,
    desk: &mut Desk<T>,
    taker: Taker,
    list: Vec<Steered>,
) -> Result<(), LiveFault>
    requires { IsClosing (sink_state (T.held desk.old.start.value) (T.faults desk.old.start.value)) (sink_state (T.held desk.old.out) (T.faults desk.old.out)) posts desk.old.writer desk.old.stepper desk.old.posts desk.old.place taker list.items }
    ensures start { desk.new.start ≡ desk.old.start }
    ensures scenario { desk.new.stepper.scenario ≡ desk.old.stepper.scenario }
    ensures done { OnOk result (WroteLive desk.new.stepper.scenario (sink_state (T.held desk.new.start.value) (T.faults desk.new.start.value)) (sink_state (T.held desk.new.out) (T.faults desk.new.out))) }
    ensures fault { IfErr result (WroteLivePart desk.new.stepper.scenario (sink_state (T.held desk.new.start.value) (T.faults desk.new.start.value)) (sink_state (T.held desk.new.out) (T.faults desk.new.out))) }
{
    let _valid = desk.stepper.scenario();
    let (posters, readers) = match parted(alloc, list) {
        Ok(parts) => parts,
        Err(_) => {
            end_box(rt, alloc, posts, taker);
            return Err(LiveFault::NoMemory);
        }
    };
    let left = match finish(rt, alloc, posts, posters, taker) {
        Ok(left) => left,
        Err(_) => return Err(LiveFault::NoMemory),
    };
    let place = desk.place;
    desk.place = list_script(&desk.stepper, &mut desk.posts, place);
    match append(&mut desk.posts, left.items()) {
        Ok(()) => {}
        Err(_) => return Err(LiveFault::NoMemory),
    }
    match advance(rt, alloc, gate, desk) {
        Ok(()) => {}
        Err(fault) => return Err(fault),
    }
    read_last_all(rt, &desk.writer, readers);
    match write_end(&mut desk.out, desk.stepper.frame().number) {
        Ok(()) => Ok(()),
        Err(_) => Err(LiveFault::WriteFault),
    }
}
