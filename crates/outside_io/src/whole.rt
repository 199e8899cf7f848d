// Reading to the end, and writing the whole.
ghost use Rattle.std.specs.Prelude.{◌≡◌, ◌≢◌, ◌<◌, ◌≤◌, ◌+◌, ◌^◌, length, IfOk, OnOk, OnErr, IfSome, IsErrOf};
ghost use Rattle.std.specs.Io.KnownBytes.{Consumes, IsAtEnd};
ghost use Rattle.outside_io.specs.Causes.{Rose, HasCause, Takes, TakesAtMost, Wrote};
ghost use Rattle.outside_io.specs.declared.whole.ReadAllFault.TheVariants.{ReadFault, NoMemory as WantsMemory};

use crate::bytes::append;
use crate::{Failed, Sink, Source};
use fixed_vec::{List, NoMemory};
use std::alloc::Global;

// As many bytes as one read asks for. A pipe gives no more at once.
const BUFFER: usize = 65_536;

/// Why not all of the bytes were read.
#[derive(Clone, Copy, Debug, PartialEq, Eq)]
pub enum ReadAllFault {
    /// A read failed.
    ReadFault,
    /// More bytes came than the limit.
    TooLong,
    /// There is no memory for the bytes.
    NoMemory,
}

impl From<Failed> for ReadAllFault {
    ghost from_gives = { λ _ e. e ≡ ReadFault };

    fn from(_: Failed) -> Self {
        ReadAllFault::ReadFault
    }
}

impl From<NoMemory> for ReadAllFault {
    ghost from_gives = { λ _ e. e ≡ WantsMemory };

    fn from(_: NoMemory) -> Self {
        ReadAllFault::NoMemory
    }
}

/// All the bytes that a source has left, where those are at most `limit`.
///
/// `limit` is at most 2^32. `ReadFault` comes only where the source's count of faults rose in this call,
/// and `TooLong` exactly where more than `limit` bytes came before the end. Reading then stops at
/// `limit + 1` bytes. It takes at most `limit + 2` reads. Bytes that were read before a fault are gone.
pub fn read_all<S: Source>(
    alloc: Global,
    source: &mut S,
    limit: usize,
) -> Result<List<u8>, ReadAllFault>
    requires { limit ≤ 2 ^ 32 }
    // Ok: these are the bytes that were left, and the source is at its end.
    ensures all { IfOk result (λ bytes.
        Consumes (S.left source.old) (S.left source.new) bytes.items) }
    ensures end { OnOk result (IsAtEnd (S.left source.new)) }
    ensures short { IfOk result (λ bytes. length bytes.items ≤ limit) }

    // More than the limit came exactly where it says so, and one byte more was read.
    ensures too_long { IsErrOf result ReadAllFault.TooLong
        → IfSome (S.left source.old) (λ xs. limit < length xs) }
    ensures stops { IsErrOf result ReadAllFault.TooLong
        → Takes (S.left source.old) (S.left source.new) (limit + 1) }

    // After the other faults at most the limit is gone.
    ensures cut { OnErr result (result ≢ Err ReadAllFault.TooLong
        → TakesAtMost (S.left source.old) (S.left source.new) limit) }
    ensures taken { TakesAtMost (S.left source.old) (S.left source.new) (limit + 1) }

    ensures fault { IsErrOf result ReadAllFault.ReadFault
        → Rose (S.faults source.old) (S.faults source.new) }
    ensures later { S.faults source.old ≤ S.faults source.new }
{
    let mut all = List::with_room(alloc, 0)?;
    let mut buffer = [0u8; BUFFER];
    for turn in 0..limit + 2 {
        let room = (limit + 1 - all.items().len()).min(BUFFER);
        // Before the read, so that a refusal loses none of its bytes.
        all.reserve(room)?;
        let count = source.read(&mut buffer[..room])?;
        if count == 0 {
            return Ok(all);
        }
        append(&mut all, &buffer[..count]);
        if all.items().len() > limit {
            return Err(ReadAllFault::TooLong);
        }
    }
    // Each turn took a byte or ended the loop.
    unreachable!()
}

/// Appends the whole piece. `Failed` comes only where the sink's count of faults rose in this call, and
/// the sink then holds a prefix of the piece more than before. It takes no memory.
pub fn write_whole<T: Sink>(sink: &mut T, piece: &[u8]) -> Result<(), Failed>
    ensures bytes { Wrote (T.held sink.old) (T.held sink.new) result piece.now }
    ensures cause { HasCause (T.faults sink.old) (T.faults sink.new) result }
{
    let mut rest = piece;
    while !rest.is_empty() {
        let taken = sink.write(rest)?;
        rest = &rest[taken..];
    }
    Ok(())
}
