// The ends in memory and the ends of std, by example.
use fixed_vec::{List, NoMemory};
use outside_io::{
    Gate, MemSink, MemSource, OpenGate, ReadAllFault, Sink, Source, StdSink, StdSource, read_all,
    write_whole,
};
use std::alloc::Global;
use std::io;
use std::io::{ErrorKind, Read, Write};
use std::test::Fail;

fn bytes_of(alloc: Global, text: &[u8]) -> Result<List<u8>, NoMemory> {
    let mut bytes = List::with_room(alloc, text.len())?;
    for byte in text {
        bytes.reserve(1)?;
        bytes.push(*byte);
    }
    Ok(bytes)
}

// No call is to fail.
fn never(alloc: Global) -> Result<List<u32>, NoMemory> {
    List::with_room(alloc, 0)
}

// The call of this number, from 0, is to fail.
fn only(alloc: Global, call: u32) -> Result<List<u32>, NoMemory> {
    let mut calls = List::with_room(alloc, 1)?;
    calls.push(call);
    Ok(calls)
}

// A source of this text that gives at most a chunk a call; one of the calls fails, if any.
fn source_of(
    alloc: Global,
    text: &[u8],
    chunk: usize,
    fails: List<u32>,
) -> Result<MemSource, NoMemory> {
    Ok(MemSource::of(bytes_of(alloc, text)?, chunk.max(1), fails))
}

// Whether all that a source still has is read, and is this.
fn gives<S: Source>(alloc: Global, source: &mut S, limit: u32, wanted: &[u8]) -> bool {
    match read_all(alloc, source, limit as usize) {
        Ok(all) => all.items() == wanted,
        Err(_) => false,
    }
}

// Whether reading all of a source ends with this fault.
fn fails_with<S: Source>(alloc: Global, source: &mut S, limit: u32, wanted: ReadAllFault) -> bool {
    match read_all(alloc, source, limit as usize) {
        Ok(_) => false,
        Err(fault) => fault == wanted,
    }
}

// Whether a sink takes a piece.
fn takes<S: Sink>(sink: &mut S, piece: &[u8]) -> bool {
    write_whole(sink, piece).is_ok()
}

// Whether a sink holds this.
fn holds(sink: &MemSink, wanted: &[u8]) -> bool {
    sink.held() == wanted
}

#[test]
fn reads_all_in_chunks(rt: HostRuntime) -> Result<(), Fail> {
    for chunk in [1, 3, 100] {
        let mut source = source_of(rt.alloc(), b"crowd,1\n", chunk, never(rt.alloc())?)?;
        assert!(rt;
            gives(rt.alloc(), &mut source, 100, b"crowd,1\n"),
            "by {chunk}"
        );
    }
    Ok(())
}

#[test]
fn first_read_fails(rt: HostRuntime) -> Result<(), Fail> {
    let mut source = source_of(rt.alloc(), b"abcd", 3, only(rt.alloc(), 0)?)?;
    assert!(rt; fails_with(rt.alloc(), &mut source, 100, ReadAllFault::ReadFault));
    assert!(rt; gives(rt.alloc(), &mut source, 100, b"abcd"));
    Ok(())
}

#[test]
fn read_fails_in_mid_stream(rt: HostRuntime) -> Result<(), Fail> {
    let mut source = source_of(rt.alloc(), b"abcdefg", 3, only(rt.alloc(), 1)?)?;
    assert!(rt; fails_with(rt.alloc(), &mut source, 100, ReadAllFault::ReadFault));
    assert!(rt; gives(rt.alloc(), &mut source, 100, b"defg"));
    Ok(())
}

#[test]
fn reads_up_to_the_limit(rt: HostRuntime) -> Result<(), Fail> {
    let mut source = source_of(rt.alloc(), b"abcd", 3, never(rt.alloc())?)?;
    assert!(rt; gives(rt.alloc(), &mut source, 4, b"abcd"));
    Ok(())
}

#[test]
fn stops_one_byte_past_the_limit(rt: HostRuntime) -> Result<(), Fail> {
    let mut source = source_of(rt.alloc(), b"abcdefgh", 100, never(rt.alloc())?)?;
    assert!(rt; fails_with(rt.alloc(), &mut source, 3, ReadAllFault::TooLong));
    assert!(rt; gives(rt.alloc(), &mut source, 4, b"efgh"));
    Ok(())
}

#[test]
fn third_write_fails(rt: HostRuntime) -> Result<(), Fail> {
    let mut sink = MemSink::open(rt.alloc(), 100, only(rt.alloc(), 2)?)?;
    assert!(rt; takes(&mut sink, b"steps,1\n"));
    assert!(rt; takes(&mut sink, b"end,0\n"));
    assert!(rt; !takes(&mut sink, b"lost\n"));
    assert!(rt; holds(&sink, b"steps,1\nend,0\n"));
    assert!(rt; takes(&mut sink, b"more"));
    assert!(rt; holds(&sink, b"steps,1\nend,0\nmore"));
    Ok(())
}

#[test]
fn piece_does_not_fit(rt: HostRuntime) -> Result<(), Fail> {
    let mut sink = MemSink::open(rt.alloc(), 4, never(rt.alloc())?)?;
    assert!(rt; takes(&mut sink, b"abc"));
    assert!(rt; !takes(&mut sink, b"de"));
    assert!(rt; holds(&sink, b"abc"));
    assert!(rt; takes(&mut sink, b"d"));
    assert!(rt; holds(&sink, b"abcd"));
    Ok(())
}

#[test]
fn empty_piece_makes_no_call(rt: HostRuntime) -> Result<(), Fail> {
    let mut sink = MemSink::open(rt.alloc(), 4, only(rt.alloc(), 0)?)?;
    assert!(rt; takes(&mut sink, b""));
    assert!(rt; !takes(&mut sink, b"a"));
    Ok(())
}

#[test]
fn reads_a_reader_of_std(rt: HostRuntime) -> Result<(), Fail> {
    let text: &[u8] = b"segment,0,0,9,9\n";
    assert!(rt; gives(rt.alloc(), &mut StdSource::new(text), 100, text));
    Ok(())
}

// A reader that gives three bytes, fails once and is then at its end.
#[derive(Drop)]
struct Interrupted {
    turns: u8,
}

impl Read for Interrupted {
    fn read(&mut self, buf: &mut [u8]) -> io::Result<usize> {
        self.turns = self.turns.saturating_add(1);
        match self.turns {
            1 => (&mut b"abc".as_slice()).read(buf),
            2 => Err(io::Error::from(ErrorKind::Interrupted)),
            _ => Ok(0),
        }
    }
}

#[test]
fn each_error_of_std_is_a_fault(rt: HostRuntime) -> Result<(), Fail> {
    let mut source = StdSource::new(Interrupted { turns: 0 });
    assert!(rt; fails_with(rt.alloc(), &mut source, 100, ReadAllFault::ReadFault));
    assert!(rt; gives(rt.alloc(), &mut source, 100, b""));
    Ok(())
}

#[test]
fn writes_to_a_writer_of_std(rt: HostRuntime) -> Result<(), Fail> {
    let mut held: Vec<u8> = Vec::new(rt.alloc());
    let mut sink = StdSink::new(&mut held);
    assert!(rt; takes(&mut sink, b"frame,0\n"));
    assert!(rt; takes(&mut sink, b"end,0\n"));
    assert_eq!(rt; held.as_slice(), b"frame,0\nend,0\n".as_slice());
    Ok(())
}

#[test]
fn full_writer_of_std_fails(rt: HostRuntime) -> Result<(), Fail> {
    let mut held = [0u8; 4];
    let mut sink = StdSink::new(held.as_mut_slice());
    assert!(rt; !takes(&mut sink, b"abcdef"));
    assert_eq!(rt; held, *b"abcd");
    Ok(())
}

// A writer that counts its calls, and whose flushes may fail.
#[derive(Drop)]
struct Counted {
    writes: u8,
    flushes: u8,
    broken: bool,
}

impl Write for Counted {
    fn write(&mut self, buf: &[u8]) -> io::Result<usize> {
        self.writes = self.writes.saturating_add(1);
        Ok(buf.len())
    }

    fn flush(&mut self) -> io::Result<()> {
        self.flushes = self.flushes.saturating_add(1);
        if self.broken {
            return Err(io::Error::from(ErrorKind::BrokenPipe));
        }
        Ok(())
    }
}

#[test]
fn each_write_is_flushed(rt: HostRuntime) -> Result<(), Fail> {
    for broken in [false, true] {
        let mut output = Counted {
            writes: 0,
            flushes: 0,
            broken,
        };
        let mut sink = StdSink::new(&mut output);
        assert!(rt; takes(&mut sink, b"one") != broken);
        assert!(rt; takes(&mut sink, b"two") != broken);
        assert_eq!(rt; (output.writes, output.flushes), (2, 2));
    }
    Ok(())
}

#[test]
fn open_gate_lets_every_turn_pass() {
    OpenGate.pass(0, 0);
    OpenGate.pass(16, u64::MAX);
}
