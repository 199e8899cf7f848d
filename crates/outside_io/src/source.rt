// What gives bytes.
ghost use Rattle.std.specs.Prelude.{ℕ, List};
ghost use Rattle.std.specs.declared.option.Option.{Option};
ghost use Rattle.std.specs.Io.{ReadsAtMost};
ghost use Rattle.std.specs.Io.KnownBytes.{ReadConsumes};
ghost use Rattle.outside_io.specs.Causes.{HasCause};

use crate::Failed;

/// Bytes that are read in order, up to an end.
pub trait Source {
    // The bytes that reads will give from here on, where the source tells them.
    ghost left: { Self → Option (List ℕ) };

    // How often a read has failed.
    ghost faults: { Self → ℕ };

    /// Puts the next bytes into the first places of `into` and answers how many. It answers 0 for a
    /// nonempty slice only at the end. `Failed` comes only where the count of faults rose, and then
    /// nothing was taken.
    fn read(&mut self, into: &mut [u8]) -> Result<usize, Failed>
        ensures bound { ReadsAtMost result into.new }
        ensures bytes { ReadConsumes (left self.old) (left self.new) result into.new }
        ensures cause { HasCause (faults self.old) (faults self.new) result };
}
