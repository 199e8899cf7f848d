// The answer of a read or a write that failed.
ghost use Rattle.std.specs.Prelude.{⊤};

use std::io;

/// A read or a write failed: nothing was taken, and the count of faults rose.
#[derive(Clone, Copy, Debug, PartialEq, Eq)]
pub struct Failed;

impl From<io::Error> for Failed {
    ghost from_gives = { λ _ _. ⊤ };

    fn from(_: io::Error) -> Self {
        Failed
    }
}
