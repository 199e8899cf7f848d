// What the stepping thread tells a controller's thread.
ghost use Rattle.std.specs.Prelude.{◌≡◌, ◌<◌};
ghost use Rattle.published_frames.specs.declared.counts.TheConstants.{CONTROLLERS};
ghost use Rattle.published_frames.specs.Names.{writer_source};

use crate::told::{Told, Writes};
use published_frames::FrameWriter;
use std::sync::{Condvar, Mutex, Wait};

/// Whether a controller's thread goes on.
#[derive(Clone, Copy, Debug, PartialEq, Eq)]
pub enum Stage {
    /// Frames are published.
    Running,
    /// No further frame will be published before the controllers are joined: the thread takes a turn on the newest frame,
    /// where it had none on it, and ends.
    Closed,
    /// The thread ends without a further turn.
    Idle,
}

// What stands under the lock. The number stays when the note is taken out.
#[derive(Drop)]
struct State<J: Writes> {
    note: Option<Told<J>>,
    number: u32,
    stage: Stage,
}

/// A notice for one controller, under a lock: the newest note for it, the number of the frame that the note tells of, and
/// the stage. Its type names the writer whose notes it has.
#[derive(Drop)]
pub struct Notice<J: Writes> {
    state: Mutex<State<J>>,
    renewed: Condvar,
}

impl<J: Writes> Notice<J> {
    /// A notice of frame 0 without a note.
    pub fn new() -> Notice<J> {
        Notice {
            state: Mutex::new(State {
                note: None,
                number: 0,
                stage: Stage::Running,
            }),
            renewed: Condvar::new(),
        }
    }

    /// Tells the controller of this number what was published.
    pub fn renew<R: Wait>(&self, rt: &R, writer: &FrameWriter, controller: u32)
        requires book { (writer_source writer.now).0 ≡ J.book }
        requires controller { controller < CONTROLLERS }
    {
        let note = writer.tell(controller);
        let number = note.number();
        let mut state = self.state.lock(rt);
        state.number = number;
        state.note = Some(Told::of(note));
        self.renewed.notify_all();
    }

    /// Ends the turns, by a stage that isn't `Running`.
    pub fn end<R: Wait>(&self, rt: &R, stage: Stage) {
        let mut state = self.state.lock(rt);
        state.stage = stage;
        self.renewed.notify_all();
    }

    /// Waits while the notice is running and tells of no frame after that of the last turn. Gives the note, where one is
    /// there, and the stage.
    pub fn wait<R: Wait>(&self, rt: &R, last: Option<u32>) -> (Option<Told<J>>, Stage) {
        let mut state = self.renewed.wait_while(rt, self.state.lock(rt), |state| {
            match (last, state.stage) {
                (Some(number), Stage::Running) => state.number <= number,
                _ => false,
            }
        });
        (state.note.take(), state.stage)
    }
}
