// The frame that readers see, filled in place.
ghost use Rattle.std.specs.Prelude.{◌≡◌, length};

use crate::log_prefix::LogPrefix;
use crowd_data::{Body, Frame, Moves};
use fixed_vec::List;
use left_right::Absorb;
use std::alloc::AllocError;

/// Moves that are published, and the log with the attempt of them.
#[derive(Drop)]
pub struct Publication {
    pub(crate) moves: Moves,
    pub(crate) prefix: LogPrefix,
}

/// A copy of the frame, and the log with the attempt that published it.
#[derive(Drop)]
pub struct ShownFrame {
    pub(crate) frame: Frame,
    pub(crate) prefix: LogPrefix,
}

impl Absorb<Publication> for ShownFrame {
    ghost use Rattle.published_frames.specs.Applied.{applied_to};

    // The bodies, the frame's number and the log.
    type State = ([Body; 0], u32, LogPrefix);

    ghost state = { λ shown. (shown.frame.bodies.items, shown.frame.number, shown.prefix) };

    ghost applied = { applied_to };

    ghost never_fails = { Unit {0} };

    fn absorb_first(
        &mut self,
        operation: &Publication,
        _other: &ShownFrame,
    ) -> Result<(), AllocError> {
        let bodies = operation.moves.frame.bodies.items();
        if self.frame.bodies.items().len() == bodies.len() {
            refill(&mut self.frame.bodies, bodies);
            self.frame.number = operation.moves.frame.number;
            self.prefix = operation.prefix.again();
        }
        Ok(())
    }
}

// Puts these bodies in place of as many others.
fn refill(into: &mut List<Body>, bodies: &[Body])
    requires { length into.old.items ≡ length bodies.now }
    ensures { into.new.items ≡ bodies.now }
{
    for (place, body) in bodies.iter().enumerate() {
        into.set(place, *body);
    }
}
