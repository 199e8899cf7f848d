// Readers, and the frames that they are lent.
ghost use Rattle.std.specs.Prelude.{◌≡◌, true};
ghost use Rattle.left_right.specs.Sides.{view};
ghost use Rattle.published_frames.specs.Log.{is_settled};
ghost use Rattle.published_frames.specs.Rule.{name_of};

use crate::log_prefix::LogPrefix;
use crate::note::Note;
use crate::rule::{Entering, FrameRule};
use crate::shown::ShownFrame;
use crate::view::FrameView;
use crowd_data::Frame;
use left_right::reader::{Reader, Reading};
use std::sync::Wait;
use std::thread;

/// A reader that is not reading.
#[derive(Drop)]
pub struct FrameReader {
    pub(crate) reader: Reader<ShownFrame, FrameView, FrameRule>,
    // All that its notes told.
    pub(crate) learnt: LogPrefix,
    ghost knows: { (view reader.place).knows ≡ true },
    ghost name: { (view reader.place).name ≡ name_of learnt.seen.book },
    ghost settled: { is_settled learnt.seen.log ≡ true },
}

/// A reader with the frame that it is lent. While there is one, a publish may wait. It is not `Drop`: end it by `leave`.
pub struct FrameGuard {
    reading: Reading<ShownFrame, FrameView, FrameRule>,
    pub(crate) learnt: LogPrefix,
    ghost knows: { (view reading.place).knows ≡ true },
    ghost name: { (view reading.place).name ≡ name_of learnt.seen.book },
    ghost settled: { is_settled learnt.seen.log ≡ true },
}

impl FrameReader {
    ghost use Rattle.std.specs.Prelude.{◌≤◌, ℕ, length};
    ghost use Rattle.crowd_data.specs.Run.{after_posts, start_of};
    ghost use Rattle.published_frames.specs.History.{IsHistory, IsReadable, StartsWith, last_of, prefs_of};
    ghost use Rattle.published_frames.specs.Taken.{posts_of, taken_of};
    ghost use Rattle.published_frames.specs.Names.{guard_frame, guard_learnt, guard_seen, guard_source, note_book, note_history, reader_learnt, reader_seen, reader_source};

    /// Takes in a note of the same writer: from now on what is read has at least the frame that the note tells of.
    pub fn learn(&mut self, note: Note)
        requires { note_book note ≡ (reader_source self.old).0 }
        ensures source { reader_source self.new ≡ reader_source self.old }
        ensures seen { reader_seen self.new ≡ reader_seen self.old }
        ensures kept { StartsWith (reader_learnt self.new) (reader_learnt self.old) }
        ensures learnt { StartsWith (reader_learnt self.new) (note_history note) }
        ensures taken { (controller : ℕ) → length (taken_of controller (note_history note)) ≤ length (taken_of controller (reader_learnt self.new)) }
    {
        self.learnt = self.learnt.longer(&note.prefix);
    }

    /// Enters and lends the frame that was published last. It takes no lock and no memory, copies nothing, and tries
    /// again where it isn't let in; after the writer is gone it may try for ever.
    pub fn read<R: Wait>(self, rt: &R) -> FrameGuard
        ensures source { guard_source result ≡ reader_source self }
        ensures learnt { guard_learnt result ≡ reader_learnt self }

        // The history begins with all that this reader read or learnt.
        ensures later_than_read { StartsWith (guard_seen result) (reader_seen self) }
        ensures later_than_learnt { StartsWith (guard_seen result) (reader_learnt self) }
        ensures taken { (controller : ℕ) → length (taken_of controller (reader_learnt self)) ≤ length (taken_of controller (guard_seen result)) }

        // The frame is the last one of that history.
        ensures legal { IsHistory (guard_source result).1 (guard_seen result) }
        ensures frame { guard_frame result ≡ last_of (start_of (guard_source result).1) (guard_seen result) }
        ensures number { (guard_frame result).number ≡ length (guard_seen result) }
        ensures readable { IsReadable (guard_source result).1 (guard_frame result) }
        ensures prefs { prefs_of (guard_frame result).bodies ≡ prefs_of (after_posts (posts_of (guard_seen result)) (start_of (guard_source result).1).bodies) }
    {
        let FrameReader { mut reader, learnt } = self;
        for _ in rt.forever() {
            match reader.enter_as::<Entering>() {
                Ok(reading) => {
                    if learnt.is_within(&reading.get().prefix) {
                        return FrameGuard { reading, learnt };
                    }
                    reader = reading.leave();
                }
                Err(back) => reader = back,
            }
            thread::yield_now();
        }
        unreachable!()
    }
}

impl FrameGuard {
    ghost use Rattle.crowd_data.specs.Run.{snapshot_of};
    ghost use Rattle.published_frames.specs.Names.{guard_frame, guard_learnt, guard_seen, guard_source, reader_learnt, reader_seen, reader_source};

    /// The frame.
    pub fn frame(&self) -> &Frame
        ensures { snapshot_of result.now ≡ guard_frame self.now }
    {
        &self.reading.get().frame
    }

    /// Gives the reader back.
    pub fn leave(self) -> FrameReader
        ensures source { reader_source result ≡ guard_source self }
        ensures seen { reader_seen result ≡ guard_seen self }
        ensures learnt { reader_learnt result ≡ guard_learnt self }
    {
        let FrameGuard { reading, learnt } = self;
        FrameReader {
            reader: reading.leave(),
            learnt,
        }
    }
}
