// Std's readers and writers as a source and a sink.
ghost use Rattle.std.specs.Prelude.{◌≡◌, ◌<◌, None, length, take, IfOk, OnOk, OnErr};
ghost use Rattle.std.specs.Io.{ReadsAtMost, WritesAtMost};
ghost use Rattle.std.specs.Io.KnownBytes.{Appends, ReadConsumes, WriteAppends};
ghost use Rattle.outside_io.specs.Causes.{AppendsPrefix, HasCause, next_count};

use crate::{Failed, Sink, Source};
use std::io::{Read, Write};
use std::marker::Model;

/// A reader of std as a source. It tells of its bytes what the reader tells: nothing, of standard input.
#[derive(Drop)]
pub struct StdSource<R: Read> {
    input: R,
    faults: u64,
}

impl<R: Read> Model for StdSource<R> {
    ghost use Rattle.outside_io.specs.Standard.{StdSourceState};

    ghost Value = { StdSourceState };

    ghost view = { λ s. record { left = R.remaining s.input; faults = s.faults } };
}

impl<R: Read> StdSource<R> {
    /// The source over this reader, with no fault counted.
    pub fn new(input: R) -> Self
        ensures { result ≡ record { left = R.remaining input; faults = 0 } }
    {
        StdSource { input, faults: 0 }
    }
}

impl<R: Read> Source for StdSource<R> {
    ghost left = { λ s. s.left };

    ghost faults = { λ s. s.faults };

    /// One read of the reader. Each of its errors is counted, up to the greatest `u64`.
    fn read(&mut self, into: &mut [u8]) -> Result<usize, Failed>
        ensures bound { ReadsAtMost result into.new }
        ensures bytes { ReadConsumes self.old.left self.new.left result into.new }
        ensures cause { HasCause self.old.faults self.new.faults result }
        ensures calm { OnOk result (self.new.faults ≡ self.old.faults) }
        ensures counted { OnErr result (self.new.faults ≡ next_count self.old.faults) }
    {
        match self.input.read(into) {
            Ok(count) => Ok(count),
            Err(_) => {
                self.faults = self.faults.saturating_add(1);
                Err(Failed)
            }
        }
    }
}

// Hands the piece to the writer and flushes it. It fails at an error of either, and where the writer
// takes nothing of a nonempty piece.
fn write_flushed<W: Write>(output: &mut W, piece: &[u8]) -> Result<usize, Failed>
    ensures bound { WritesAtMost result piece.now }
    ensures takes { IfOk result (λ n. 0 < length piece.now → 0 < n) }
    ensures reached { IfOk result (λ n.
        Appends (W.contents output.old) (W.contents output.new) (take n piece.now)) }
    ensures partly_reached { OnErr result
        (AppendsPrefix (W.contents output.old) (W.contents output.new) piece.now) }
{
    let taken = output.write(piece)?;
    if taken == 0 && !piece.is_empty() {
        return Err(Failed);
    }
    output.flush()?;
    Ok(taken)
}

/// A writer of std as a sink, flushed after each write. As a sink it tells nothing of its bytes, since a
/// flush may fail once the writer has taken them.
#[derive(Drop)]
pub struct StdSink<W: Write> {
    output: W,
    faults: u64,
}

impl<W: Write> Model for StdSink<W> {
    ghost use Rattle.outside_io.specs.Standard.{StdSinkState};

    ghost Value = { StdSinkState };

    ghost view = { λ s. record { reached = W.contents s.output; faults = s.faults } };
}

impl<W: Write> StdSink<W> {
    /// The sink over this writer, with no fault counted.
    pub fn new(output: W) -> Self
        ensures { result ≡ record { reached = W.contents output; faults = 0 } }
    {
        StdSink { output, faults: 0 }
    }
}

impl<W: Write> Sink for StdSink<W> {
    ghost held = { λ _. None };

    ghost faults = { λ s. s.faults };

    /// One write of the writer and one flush. Each error of the two is counted, up to the greatest
    /// `u64`, and so is a writer that takes nothing of a nonempty piece.
    fn write(&mut self, piece: &[u8]) -> Result<usize, Failed>
        ensures bound { WritesAtMost result piece.now }
        ensures takes { IfOk result (λ n. 0 < length piece.now → 0 < n) }
        ensures bytes { WriteAppends None None result piece.now }
        ensures cause { HasCause self.old.faults self.new.faults result }
        ensures calm { OnOk result (self.new.faults ≡ self.old.faults) }
        ensures counted { OnErr result (self.new.faults ≡ next_count self.old.faults) }
        // What reached the writer: the bytes taken, or some front of the piece where the call failed.
        ensures reached { IfOk result (λ n. Appends self.old.reached self.new.reached (take n piece.now)) }
        ensures partly_reached { OnErr result (AppendsPrefix self.old.reached self.new.reached piece.now) }
    {
        let result = write_flushed(&mut self.output, piece);
        if result.is_err() {
            self.faults = self.faults.saturating_add(1);
        }
        result
    }
}
