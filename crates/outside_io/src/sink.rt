// What takes bytes.
ghost use Rattle.std.specs.Prelude.{ℕ, ◌<◌, List, length, IfOk};
ghost use Rattle.std.specs.declared.option.Option.{Option};
ghost use Rattle.std.specs.Io.{WritesAtMost};
ghost use Rattle.std.specs.Io.KnownBytes.{WriteAppends};
ghost use Rattle.outside_io.specs.Causes.{HasCause};

use crate::Failed;

/// A place to which bytes are written in order.
pub trait Sink {
    // The bytes that it holds, where the sink tells them.
    ghost held: { Self → Option (List ℕ) };

    // How often a write has failed.
    ghost faults: { Self → ℕ };

    /// Appends the first bytes of `piece` and answers how many: at least one where the piece isn't
    /// empty. `Failed` comes only where the count of faults rose, and then the sink holds what it held.
    fn write(&mut self, piece: &[u8]) -> Result<usize, Failed>
        ensures bound { WritesAtMost result piece.now }
        ensures takes { IfOk result (λ n. 0 < length piece.now → 0 < n) }
        ensures bytes { WriteAppends (held self.old) (held self.new) result piece.now }
        ensures cause { HasCause (faults self.old) (faults self.new) result };
}
