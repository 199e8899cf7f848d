// A note under a lock, of a writer that its type names.
ghost use Rattle.std.specs.Prelude.{◌≡◌};
ghost use Rattle.published_frames.specs.Names.{note_book};

use published_frames::Note;
use std::marker::{Brand, PhantomData};

/// Names one writer, by the book of its log.
pub trait Writes {
    ghost use Rattle.logbook.specs.Pages.{Book};

    ghost book: { Book };
}

// A call that is made with `Brand` says by a ghost item which writer it is.
impl Writes for Brand {
    ghost book = { record { number = 0; log_name = 0; cells_name = 0 } };
}

/// A note of the writer that `J` names.
#[derive(Drop)]
pub struct Told<J: Writes> {
    note: Note,
    of: PhantomData<J>,
    ghost one_book: { note_book note ≡ J.book },
}

impl<J: Writes> Told<J> {
    /// The note of this writer.
    pub fn of(note: Note) -> Told<J>
        requires { note_book note ≡ J.book }
    {
        Told {
            note,
            of: PhantomData,
        }
    }

    /// The note.
    pub fn into_note(self) -> Note
        ensures { note_book result ≡ J.book }
    {
        let Told { note, of: _ } = self;
        note
    }
}
