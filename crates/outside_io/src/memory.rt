// A source and a sink in memory, which fail in the calls that they are told.
ghost use Rattle.std.specs.Prelude.{◌≡◌, ◌<◌, ◌≤◌, ◌+◌, ◌-◌, ◌↔◌, ◌⊎◌, [], ◌++◌, Some, length, drop, min, Contains, IsErr, IsTrue, IfOk, OnOk, OnErr};
ghost use Rattle.std.specs.Io.{ReadsAtMost, WritesAtMost};
ghost use Rattle.std.specs.Io.KnownBytes.{ReadConsumes, WriteAppends};
ghost use Rattle.outside_io.specs.Causes.{HasCause};
ghost use Rattle.outside_io.specs.Memory.{source_after_read, source_after_fault, sink_after_write, sink_after_fault};

use crate::bytes::append;
use crate::{Failed, Sink, Source};
use fixed_vec::{List, NoMemory};
use std::alloc::Global;
use std::marker::Model;

// Whether the call of this number is to fail.
fn is_listed(fails: &List<u32>, call: u64) -> bool
    ensures { IsTrue result ↔ Contains fails.now.items call }
{
    fails
        .items()
        .iter()
        .any(|listed| u64::from(*listed) == call)
}

/// Bytes in memory as a source, which gives at most a chunk of them a call and fails in listed calls.
#[derive(Drop)]
pub struct MemSource {
    bytes: List<u8>,
    at: usize,
    chunk: usize,
    fails: List<u32>,
    calls: u64,
    faults: u64,
}

impl Model for MemSource {
    ghost use Rattle.std.specs.Prelude.{◌≤◌, drop, length};
    ghost use Rattle.outside_io.specs.Memory.{MemSourceState};

    ghost Value = { MemSourceState };

    ghost view = { λ s. record {
      left = drop s.at s.bytes.items;
      chunk = s.chunk;
      fails = s.fails.items;
      calls = s.calls;
      faults = s.faults;
    } };

    ghost invariant = { λ s. (s.at ≤ length s.bytes.items) × (1 ≤ s.chunk) };
}

impl MemSource {
    /// A source of these bytes. It gives at most `chunk` bytes a call, and fails exactly in the calls
    /// whose numbers, from 0, are in `fails`.
    pub fn of(bytes: List<u8>, chunk: usize, fails: List<u32>) -> Self
        requires { 1 ≤ chunk }
        ensures { result ≡ record {
          left = bytes.items;
          chunk = chunk;
          fails = fails.items;
          calls = 0;
          faults = 0;
        } }
    {
        MemSource {
            bytes,
            at: 0,
            chunk,
            fails,
            calls: 0,
            faults: 0,
        }
    }
}

impl Source for MemSource {
    ghost left = { λ s. Some s.left };

    ghost faults = { λ s. s.faults };

    /// Fails exactly in the listed calls. Otherwise it gives as many bytes as are left, fit into the
    /// slice and make up at most a chunk.
    fn read(&mut self, into: &mut [u8]) -> Result<usize, Failed>
        ensures bound { ReadsAtMost result into.new }
        ensures bytes { ReadConsumes (Some self.old.left) (Some self.new.left) result into.new }
        ensures cause { HasCause self.old.faults self.new.faults result }

        ensures fails { IsErr result ↔ Contains self.old.fails self.old.calls }
        ensures count { IfOk result (λ n.
            n ≡ min (min (length self.old.left) (length into.old)) self.old.chunk) }

        ensures given { IfOk result (λ n. self.new ≡ source_after_read self.old n) }
        ensures failed { OnErr result (self.new ≡ source_after_fault self.old) }
        ensures calm { self.old.fails ≡ [] → self.new.faults ≡ self.old.faults }
    {
        let call = self.calls;
        self.calls = self.calls.saturating_add(1);
        if is_listed(&self.fails, call) {
            self.faults = self.faults.saturating_add(1);
            return Err(Failed);
        }
        let (_, rest) = self.bytes.items().split_at(self.at);
        let count = rest.len().min(into.len()).min(self.chunk);
        into[..count].copy_from_slice(&rest[..count]);
        self.at += count;
        Ok(count)
    }
}

/// A sink in memory with a fixed room, which takes each piece whole and fails in listed calls.
#[derive(Drop)]
pub struct MemSink {
    bytes: List<u8>,
    room: usize,
    fails: List<u32>,
    calls: u64,
    faults: u64,
}

impl Model for MemSink {
    ghost use Rattle.std.specs.Prelude.{◌+◌, ◌≤◌, length};
    ghost use Rattle.outside_io.specs.Memory.{MemSinkState};

    ghost Value = { MemSinkState };

    ghost view = { λ s. record {
      held = s.bytes.items;
      room = s.room;
      fails = s.fails.items;
      calls = s.calls;
      faults = s.faults;
    } };

    ghost invariant = { λ s.
        (length s.bytes.items ≤ s.room) × (s.room ≤ length s.bytes.items + s.bytes.spare) };
}

impl MemSink {
    /// An empty sink for at most `room` bytes. It takes each piece whole, and fails exactly in the calls
    /// whose numbers, from 0, are in `fails`, and where a piece doesn't fit into what is left of the room.
    pub fn open(alloc: Global, room: usize, fails: List<u32>) -> Result<Self, NoMemory>
        ensures { IfOk result (λ sink. sink ≡ record {
          held = [];
          room = room;
          fails = fails.items;
          calls = 0;
          faults = 0;
        }) }
    {
        let bytes = List::with_room(alloc, room)?;
        Ok(MemSink {
            bytes,
            room,
            fails,
            calls: 0,
            faults: 0,
        })
    }

    /// The bytes that were written.
    pub fn held(&self) -> &[u8]
        ensures { result.now ≡ self.now.held }
    {
        self.bytes.items()
    }
}

impl Sink for MemSink {
    ghost held = { λ s. Some s.held };

    ghost faults = { λ s. s.faults };

    /// Fails exactly in the listed calls and where the piece doesn't fit. Otherwise it takes the piece
    /// whole.
    fn write(&mut self, piece: &[u8]) -> Result<usize, Failed>
        ensures bound { WritesAtMost result piece.now }
        ensures takes { IfOk result (λ n. 0 < length piece.now → 0 < n) }
        ensures bytes { WriteAppends (Some self.old.held) (Some self.new.held) result piece.now }
        ensures cause { HasCause self.old.faults self.new.faults result }

        ensures fails { IsErr result ↔ (Contains self.old.fails self.old.calls
            ⊎ (self.old.room < length self.old.held + length piece.now)) }
        ensures whole { IfOk result (λ n. n ≡ length piece.now) }

        ensures taken { OnOk result (self.new ≡ sink_after_write self.old piece.now) }
        ensures failed { OnErr result (self.new ≡ sink_after_fault self.old) }
        ensures calm { self.old.fails ≡ []
            → length self.old.held + length piece.now ≤ self.old.room
            → self.new.faults ≡ self.old.faults }
    {
        let call = self.calls;
        self.calls = self.calls.saturating_add(1);
        let left = self.room - self.bytes.items().len();
        if is_listed(&self.fails, call) || left < piece.len() {
            self.faults = self.faults.saturating_add(1);
            return Err(Failed);
        }
        append(&mut self.bytes, piece);
        Ok(piece.len())
    }
}
