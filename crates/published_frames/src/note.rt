// What the writer tells a reader.
ghost use Rattle.std.specs.Prelude.{◌≡◌, length, true};
ghost use Rattle.published_frames.specs.Log.{is_settled, published_in};
ghost use Rattle.published_frames.specs.Taken.{count_of};

use crate::log_prefix::LogPrefix;

/// A note for a controller: the number of the frame that was published last, and how many posts of that controller are
/// in the published moves.
#[derive(Drop)]
pub struct Note {
    pub(crate) number: u32,
    pub(crate) controller: u32,
    pub(crate) taken: u32,
    pub(crate) prefix: LogPrefix,
    ghost numbered: { number ≡ length (published_in prefix.seen.log) },
    ghost counted: { taken ≡ count_of controller (published_in prefix.seen.log) },
    ghost settled: { is_settled prefix.seen.log ≡ true },
}

impl Note {
    ghost use Rattle.published_frames.specs.Names.{note_controller, note_history};

    /// The number of the frame that was published last.
    pub fn number(&self) -> u32
        ensures { result ≡ length (note_history self.now) }
    {
        self.number
    }

    /// The controller that the note is for, below `CONTROLLERS`.
    pub fn controller(&self) -> u32
        ensures { result ≡ note_controller self.now }
    {
        self.controller
    }

    /// How many posts of the note's controller are in the published moves, or 2^32 - 1 where there are more.
    pub fn taken(&self) -> u32
        ensures { result ≡ count_of (note_controller self.now) (note_history self.now) }
    {
        self.taken
    }
}
