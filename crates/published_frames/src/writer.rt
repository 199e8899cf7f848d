// The writer.
ghost use Rattle.std.specs.Prelude.{◌≡◌, ◌<◌, ℕ, [], drop, length, slice_index, true};
ghost use Rattle.crowd_data.specs.Run.{start_of};
ghost use Rattle.left_right.specs.Sides.{view};
ghost use Rattle.published_frames.specs.declared.counts.TheConstants.{CONTROLLERS};
ghost use Rattle.published_frames.specs.History.{last_of};
ghost use Rattle.published_frames.specs.Log.{attempted_in, is_settled, length_word, published_in, scenario_in};
ghost use Rattle.published_frames.specs.Rule.{name_of, view_of};
ghost use Rattle.published_frames.specs.Taken.{count_of};

use crate::counts::{CONTROLLERS, PostCounts};
use crate::log_prefix::{LogLength, LogPrefix};
use crate::note::Note;
use crate::reader::FrameReader;
use crate::rule::{FrameRule, Publishing, Sharing};
use crate::shown::{Publication, ShownFrame};
use crate::view::FrameView;
use core::mem;
use crowd_data::{Frame, Moves, Scenario, copy_frame};
use fixed_vec::NoMemory;
use left_right::writer::Writer;
use logbook::{Seen, Start, Word};
use std::alloc::Global;
use std::sync::Wait;

/// Moves that could not be published, as they were handed in.
#[derive(Drop)]
pub struct Unpublished {
    pub moves: Moves,
}

/// The one that publishes. It is not `Drop`: end it by `close`.
pub struct FrameWriter {
    copies: Writer<ShownFrame, Publication, FrameView, FrameRule>,
    log_length: LogLength,
    // The whole log.
    log: LogPrefix,
    // The log as it was when a frame was published last.
    published: LogPrefix,
    // How many posts of each controller are in it.
    counts: PostCounts,
    ghost length_is: { log_length ≡ length_word log.seen.book },
    ghost one_book: { (published.seen.book ≡ log.seen.book) × (copies.desk.shown.value.prefix.seen.book ≡ log.seen.book) },
    ghost one_scenario: { (scenario_in published.seen.log ≡ scenario_in log.seen.log) × (scenario_in copies.desk.shown.value.prefix.seen.log ≡ scenario_in log.seen.log) },
    ghost one_history: { (published_in published.seen.log ≡ attempted_in copies.desk.shown.value.prefix.seen.log) × (published_in log.seen.log ≡ attempted_in copies.desk.shown.value.prefix.seen.log) },
    ghost number: { copies.desk.shown.value.frame.number ≡ length (published_in published.seen.log) },
    ghost bodies: { copies.desk.shown.value.frame.bodies.items ≡ (last_of (start_of (scenario_in published.seen.log)) (published_in published.seen.log)).bodies },
    ghost settled: { is_settled published.seen.log ≡ true },
    ghost none_pending: { drop copies.behind copies.log.items ≡ [] },
    ghost knows_all: { view copies.desk.place ≡ view_of (name_of log.seen.book) (scenario_in log.seen.log) (attempted_in copies.desk.shown.value.prefix.seen.log) },
    ghost counted: { (controller : ℕ) → controller < CONTROLLERS → slice_index counts.counts controller ≡ count_of controller (published_in published.seen.log) },
}

impl FrameWriter {
    ghost use Rattle.std.specs.Prelude.{◌≤◌, ◌++◌, ◌∷◌, IfErr, IfOk};
    ghost use Rattle.crowd_data.specs.Run.{snapshot_of};
    ghost use Rattle.crowd_data.specs.Scenario.{IsValid};
    ghost use Rattle.published_frames.specs.History.{CanFollow, IsHistory, step_of};
    ghost use Rattle.published_frames.specs.Names.{IsNewReader, note_book, note_controller, note_history, writer_history, writer_source};

    /// Publishes the next frame with its posts. It may wait while a guard of an earlier frame is held. `Unpublished`
    /// comes where memory runs out (documented, not proved), hands the moves back and changes nothing.
    pub fn publish<R: Wait>(&mut self, rt: &R, moves: Moves) -> Result<(), Unpublished>
        requires { CanFollow (writer_source self.old).1 (writer_history self.old) moves }
        ensures source { writer_source self.new ≡ writer_source self.old }
        ensures published { IfOk result (λ _. writer_history self.new ≡ writer_history self.old ++ step_of moves ∷ []) }
        ensures legal { IfOk result (λ _. IsHistory (writer_source self.new).1 (writer_history self.new)) }
        ensures handed_back { IfErr result (λ refused. refused.moves ≡ moves) }
        ensures unchanged { IfErr result (λ _. writer_history self.new ≡ writer_history self.old) }
    {
        mem::replace_with(
            self,
            moves,
            |writer: FrameWriter, moves: Moves| -> (FrameWriter, Result<(), Unpublished>)
                requires { CanFollow (writer_source writer).1 (writer_history writer) moves }
                ensures { (writer_source result.0 ≡ writer_source writer)
                    × IfOk result.1 (λ _. (writer_history result.0 ≡ writer_history writer ++ step_of moves ∷ []) × IsHistory (writer_source result.0).1 (writer_history result.0))
                    × IfErr result.1 (λ refused. (refused.moves ≡ moves) × (writer_history result.0 ≡ writer_history writer)) }
            { writer.after_publish(rt, moves) },
        )
    }

    // The writer after it published these moves, or after it was refused.
    fn after_publish<R: Wait>(self, rt: &R, moves: Moves) -> (FrameWriter, Result<(), Unpublished>)
        requires { CanFollow (writer_source self).1 (writer_history self) moves }
        ensures source { writer_source result.0 ≡ writer_source self }
        ensures published { IfOk result.1 (λ _. writer_history result.0 ≡ writer_history self ++ step_of moves ∷ []) }
        ensures legal { IfOk result.1 (λ _. IsHistory (writer_source result.0).1 (writer_history result.0)) }
        ensures refused { IfErr result.1 (λ refused. (refused.moves ≡ moves) × (writer_history result.0 ≡ writer_history self)) }
    {
        let FrameWriter {
            mut copies,
            log_length,
            log,
            published,
            counts,
        } = self;
        let more = counts.with(moves.posts.items());
        let log = log.attempt(rt, &log_length, &moves);
        let publication = Publication {
            moves,
            prefix: log.again(),
        };
        match copies.append(publication) {
            Ok(()) => {}
            Err(publication) => {
                let Publication {
                    moves,
                    prefix: _prefix,
                } = publication;
                let writer = FrameWriter {
                    copies,
                    log_length,
                    log,
                    published,
                    counts,
                };
                return (writer, Err(Unpublished { moves }));
            }
        }
        let (copies, done) = copies.publish_as::<Publishing, R>(rt);
        match done {
            Ok(()) => {
                let log = log.success(rt, &log_length);
                let writer = FrameWriter {
                    copies,
                    log_length,
                    published: log.again(),
                    log,
                    counts: more,
                };
                (writer, Ok(()))
            }
            Err(_) => unreachable!(),
        }
    }

    /// A note for a controller of what was published.
    pub fn tell(&self, controller: u32) -> Note
        requires { controller < CONTROLLERS }
        ensures book { note_book result ≡ (writer_source self.now).0 }
        ensures controller { note_controller result ≡ controller }
        ensures history { note_history result ≡ writer_history self.now }
    {
        Note {
            number: self.copies.published().frame.number,
            controller,
            taken: self.counts.counts[controller as usize],
            prefix: self.published.again(),
        }
    }

    /// Ends the writer. It takes no memory, and may wait while a guard is held.
    pub fn close<R: Wait>(self, rt: &R) {
        let FrameWriter {
            copies,
            log_length: _log_length,
            log: _log,
            published: _published,
            counts: _,
        } = self;
        drop(copies.take(rt));
    }

    // The writer of a history with no step, and places for so many readers.
    pub(crate) fn new<R: Wait>(
        rt: &R,
        alloc: Global,
        scenario: &Scenario,
        first: &Frame,
        readers: usize,
    ) -> Result<FrameWriter, NoMemory>
        requires valid { IsValid scenario.now }
        requires first { snapshot_of first.now ≡ start_of scenario.now }
        requires readers { (0 < readers) × (readers ≤ CONTROLLERS) }
        ensures source { IfOk result (λ writer. (writer_source writer).1 ≡ scenario.now) }
        ensures history { IfOk result (λ writer. writer_history writer ≡ []) }
    {
        let (seen, mut first_word, _second_word) = Seen::open(Start::alone(), 0, 0);
        let log_length = Word::tracked(0, &mut first_word);
        let log = LogPrefix::none(seen).start(rt, &log_length, scenario);
        let shown = ShownFrame {
            frame: copy_frame(alloc, first)?,
            prefix: log.again(),
        };
        let spare = ShownFrame {
            frame: copy_frame(alloc, first)?,
            prefix: log.again(),
        };
        let copies = match Writer::new(alloc, shown, spare, readers) {
            Ok(copies) => copies,
            Err(_) => return Err(NoMemory),
        };
        let (copies, done) = copies.publish_as::<Publishing, R>(rt);
        match done {
            Ok(()) => Ok(FrameWriter {
                copies,
                log_length,
                published: log.again(),
                log,
                counts: PostCounts::none(),
            }),
            Err(_) => unreachable!(),
        }
    }

    // A new reader, where there is a place for it.
    pub(crate) fn reader(&mut self) -> Result<FrameReader, NoMemory>
        ensures writer { (writer_source self.new ≡ writer_source self.old) × (writer_history self.new ≡ writer_history self.old) }
        ensures reader { IfOk result (IsNewReader (writer_source self.old) (writer_history self.old)) }
    {
        let mut reader = match self.copies.factory().reader() {
            Ok(reader) => reader,
            Err(_) => return Err(NoMemory),
        };
        reader.learn::<Sharing>(self.copies.tell::<Sharing>());
        Ok(FrameReader {
            reader,
            learnt: self.published.again(),
        })
    }
}
