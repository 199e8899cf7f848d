// The top call over sources and sinks in memory.
use fixed_vec::{List, NoMemory};
use orca_cli::orca;
use outside_io::{MemSink, MemSource, OpenGate};
use std::alloc::Global;
use std::sync::Wait;
use std::test::Fail;
use std::thread::Threads;

const ONE_AGENT: &[u8] = b"crowd,1\nsteps,1\nagent,0,0,0,0,300,0,500,400,15000,0,10,4\n";

const ONE_AGENT_LINES: [&[u8]; 8] = [
    b"crowd,1\n",
    b"steps,1\n",
    b"agent,0,0,0,0,300,0,500,400,15000,0,10,4\n",
    b"frame,0\n",
    b"body,0,0,0,0,0,300,0,start,0\n",
    b"frame,1\n",
    b"body,0,300,0,300,0,300,0,feasible,0\n",
    b"end,1\n",
];

const ONE_AGENT_TEXT: &[u8] =
    b"crowd,1\nsteps,1\nagent,0,0,0,0,300,0,500,400,15000,0,10,4\nframe,0\nbody,0,0,0,0,0,300,0,start,0\nframe,1\nbody,0,300,0,300,0,300,0,feasible,0\nend,1\n";

const ROOM: usize = 100_000;

pub(crate) fn bytes_of(alloc: Global, text: &[u8]) -> Result<List<u8>, NoMemory> {
    let mut bytes = List::with_room(alloc, text.len())?;
    for byte in text {
        bytes.reserve(1)?;
        bytes.push(*byte);
    }
    Ok(bytes)
}

// The calls that are to fail: none, or the one of this number, from 0.
fn fails_of(alloc: Global, call: Option<u32>) -> Result<List<u32>, NoMemory> {
    let mut calls = List::with_room(alloc, 1)?;
    if let Some(number) = call {
        calls.push(number);
    }
    Ok(calls)
}

// What a call answered, and what both sinks hold.
#[derive(Drop)]
pub(crate) struct Ended {
    pub status: u8,
    pub out: MemSink,
    pub err: MemSink,
}

// Which call of each end is to fail, if any.
#[derive(Clone, Copy)]
struct Faults {
    source: Option<u32>,
    out: Option<u32>,
    err: Option<u32>,
}

const NONE: Faults = Faults {
    source: None,
    out: None,
    err: None,
};

fn run_on<R: Threads + Wait + Sync>(
    rt: &R,
    alloc: Global,
    words: &[&str],
    input: List<u8>,
    faults: Faults,
) -> Result<Ended, Fail> {
    let mut source = MemSource::of(input, 4096, fails_of(alloc, faults.source)?);
    let mut out = MemSink::open(alloc, ROOM, fails_of(alloc, faults.out)?)?;
    let mut err = MemSink::open(alloc, ROOM, fails_of(alloc, faults.err)?)?;
    let status = orca(rt, alloc, words, &mut source, &mut out, &mut err, &OpenGate);
    Ok(Ended { status, out, err })
}

/// Runs the words over an input, where nothing fails.
pub(crate) fn ask<R: Threads + Wait + Sync>(
    rt: &R,
    alloc: Global,
    words: &[&str],
    input: &[u8],
) -> Result<Ended, Fail> {
    run_on(rt, alloc, words, bytes_of(alloc, input)?, NONE)
}

// What has come of a call.
#[derive(Clone, Copy)]
struct Outcome<'a> {
    status: u8,
    out: &'a [u8],
    err: &'a [u8],
}

fn is_outcome(ended: &Ended, wanted: Outcome) -> bool {
    ended.status == wanted.status
        && ended.out.held() == wanted.out
        && ended.err.held() == wanted.err
}

/// Whether the words over an input, where nothing fails, answer this status and write this to the output and to the
/// error output.
pub(crate) fn answers<R: Threads + Wait + Sync>(
    rt: &R,
    alloc: Global,
    words: &[&str],
    input: &[u8],
    status: u8,
    out: &[u8],
    err: &[u8],
) -> Result<bool, Fail> {
    let ended = ask(rt, alloc, words, input)?;
    Ok(is_outcome(&ended, Outcome { status, out, err }))
}

/// Whether two lists of words write the same over an input, both with status 0.
pub(crate) fn are_alike<R: Threads + Wait + Sync>(
    rt: &R,
    alloc: Global,
    words: [&[&str]; 2],
    input: &[u8],
) -> Result<bool, Fail> {
    let [first, second] = words;
    let wanted = ask(rt, alloc, first, input)?;
    let ended = ask(rt, alloc, second, input)?;
    Ok(
        wanted.status == 0
            && is_outcome(
                &ended,
                Outcome {
                    status: 0,
                    out: wanted.out.held(),
                    err: b"",
                },
            ),
    )
}

// Whether the words over one agent have this outcome where these calls fail.
fn fails_as<R: Threads + Wait + Sync>(
    rt: &R,
    alloc: Global,
    words: &[&str],
    faults: Faults,
    wanted: Outcome,
) -> Result<bool, Fail> {
    let ended = run_on(rt, alloc, words, bytes_of(alloc, ONE_AGENT)?, faults)?;
    Ok(is_outcome(&ended, wanted))
}

fn run<R: Threads + Wait + Sync>(rt: &R, alloc: Global, input: &[u8]) -> Result<Ended, Fail> {
    run_on(rt, alloc, &["run"], bytes_of(alloc, input)?, NONE)
}

/// Whether the run of an input ends with these lines.
pub(crate) fn ends_with<R: Threads + Wait + Sync>(
    rt: &R,
    alloc: Global,
    input: &[u8],
    lines: &[u8],
) -> Result<bool, Fail> {
    let ended = run(rt, alloc, input)?;
    Ok(ended.status == 0 && ended.out.held().ends_with(lines))
}

#[test]
fn prints_one_agent(rt: HostRuntime) -> Result<(), Fail> {
    assert_eq!(rt; ONE_AGENT_TEXT.len(), 144);
    assert!(rt; answers(&rt, rt.alloc(), &["run"], ONE_AGENT, 0, ONE_AGENT_TEXT, b"")?);
    Ok(())
}

#[test]
fn prints_no_agents(rt: HostRuntime) -> Result<(), Fail> {
    let text: &[u8] = b"crowd,1\nsteps,1\nframe,0\nframe,1\nend,1\n";
    assert!(rt;
        answers(
            &rt,
            rt.alloc(),
            &["run"],
            b"crowd,1\nsteps,1\n",
            0,
            text,
            b""
        )?
    );
    Ok(())
}

#[test]
fn prints_no_steps(rt: HostRuntime) -> Result<(), Fail> {
    let input: &[u8] = b"crowd,1\nsteps,0\nagent,0,0,0,0,300,0,500,400,15000,0,10,4\n";
    let text: &[u8] =
        b"crowd,1\nsteps,0\nagent,0,0,0,0,300,0,500,400,15000,0,10,4\nframe,0\nbody,0,0,0,0,0,300,0,start,0\nend,0\n";
    assert!(rt; answers(&rt, rt.alloc(), &["run"], input, 0, text, b"")?);
    Ok(())
}

// The status and the bytes written of a run of one agent whose write of this number fails.
fn written_until<R: Threads + Wait + Sync>(
    rt: &R,
    alloc: Global,
    call: u32,
) -> Result<(u8, usize), Fail> {
    let faults = Faults {
        out: Some(call),
        ..NONE
    };
    let ended = run_on(rt, alloc, &["run"], bytes_of(alloc, ONE_AGENT)?, faults)?;
    Ok((ended.status, ended.out.held().len()))
}

#[test]
fn each_line_is_one_piece(rt: HostRuntime) -> Result<(), Fail> {
    let mut size = 0usize;
    for (call, line) in ONE_AGENT_LINES.iter().enumerate() {
        let written = written_until(&rt, rt.alloc(), call as u32)?;
        assert_eq!(rt; written, (5, size));
        size = size.wrapping_add(line.len());
    }
    Ok(())
}

#[test]
fn third_write_fails(rt: HostRuntime) -> Result<(), Fail> {
    let faults = Faults {
        out: Some(2),
        ..NONE
    };
    let wanted = Outcome {
        status: 5,
        out: b"crowd,1\nsteps,1\n",
        err: b"write fault\n",
    };
    assert!(rt; fails_as(&rt, rt.alloc(), &["run"], faults, wanted)?);
    Ok(())
}

#[test]
fn first_read_fails(rt: HostRuntime) -> Result<(), Fail> {
    let faults = Faults {
        source: Some(0),
        ..NONE
    };
    let wanted = Outcome {
        status: 4,
        out: b"",
        err: b"read fault\n",
    };
    assert!(rt; fails_as(&rt, rt.alloc(), &["run"], faults, wanted)?);
    Ok(())
}

#[test]
fn failing_error_output_changes_no_status(rt: HostRuntime) -> Result<(), Fail> {
    let faults = Faults {
        err: Some(0),
        ..NONE
    };
    let wanted = Outcome {
        status: 2,
        out: b"",
        err: b"",
    };
    assert!(rt; fails_as(&rt, rt.alloc(), &["walk"], faults, wanted)?);
    Ok(())
}

// Whether the run of so many empty lines has this outcome.
fn run_of_lines<R: Threads + Wait + Sync>(
    rt: &R,
    alloc: Global,
    count: usize,
    wanted: Outcome,
) -> Result<bool, Fail> {
    let mut input = List::with_room(alloc, count)?;
    for _ in 0..count {
        input.reserve(1)?;
        input.push(b'\n');
    }
    Ok(is_outcome(&run_on(rt, alloc, &["run"], input, NONE)?, wanted))
}

#[test]
fn input_is_one_byte_too_long(rt: HostRuntime) -> Result<(), Fail> {
    let wanted = Outcome {
        status: 6,
        out: b"",
        err: b"input too long\n",
    };
    assert!(rt; run_of_lines(&rt, rt.alloc(), 16_777_217, wanted)?);
    Ok(())
}

#[test]
fn names_the_first_cause(rt: HostRuntime) -> Result<(), Fail> {
    let refused: [(&[u8], &[u8]); 15] = [
        (b"", b"refused: record 0: NoHeader\n"),
        (b"crowd,3\nsteps,1\n", b"refused: record 0: NoHeader\n"),
        (b"crowd,1\n", b"refused: record 1: NoSteps\n"),
        (
            b"crowd,1\nsteps,1\ntree,1\n",
            b"refused: record 2: UnknownKind\n",
        ),
        (
            b"crowd,1\nsteps,1\nagent,0,0",
            b"refused: record 2: FieldCount\n",
        ),
        (
            b"crowd,1\nsteps,x\n",
            b"refused: record 1: NotANumber field 1\n",
        ),
        (
            b"crowd,1\nsteps,",
            b"refused: record 1: NotANumber field 1\n",
        ),
        (
            b"crowd,1\nsteps,100001\n",
            b"refused: record 1: OutOfRange field 1\n",
        ),
        (
            b"crowd,1\nsteps,1\nagent,4194305,0,0,0,0,0,500,400,15000,10,10,4\n",
            b"refused: record 2: OutOfRange field 1\n",
        ),
        (
            b"crowd,1\nsteps,1\nagent,0,0,0,0,300,0,500,400,15000,0,10,4097\n",
            b"refused: record 2: OutOfRange field 12\n",
        ),
        (
            b"crowd,1\nsteps,1\nsteps,1\n",
            b"refused: record 2: StepsTwice\n",
        ),
        (
            b"crowd,1\nsteps,1\npost,1,0,0,0\n",
            b"refused: record 2: NoSuchAgent\n",
        ),
        (
            b"crowd,1\nsteps,5\nagent,0,0,0,0,0,0,500,400,15000,10,10,4\npost,3,0,0,0\npost,2,0,0,0\n",
            b"refused: record 4: PostOrder\n",
        ),
        (
            b"crowd,1\nsteps,1\nagent,0,0,0,0,0,0,500,400,15000,10,10,4\ngoal,0,0,9,9,5\ngoal,1,0,9,9,5\n",
            b"refused: record 4: GoalTwice\n",
        ),
        (
            b"crowd,1\nsteps,1\nagent,0,0,0,0,0,0,500,400,15000,10,10,4\nsegment,-2000,499,2000,499\n",
            b"refused: record 4: AgentOnSegment agent 0 segment 0\n",
        ),
    ];
    for (input, line) in refused {
        assert!(rt; answers(&rt, rt.alloc(), &["run"], input, 3, b"", line)?);
    }
    Ok(())
}

// A quoted number, a line end of two bytes and a byte order mark are read like any other.
#[test]
fn reads_records_as_csv_does(rt: HostRuntime) -> Result<(), Fail> {
    let input: &[u8] =
        b"\xef\xbb\xbfcrowd,\"1\"\r\n\r\nsteps,01\r\nagent,-0,0,0,0,300,0,500,400,15000,0,10,4";
    assert!(rt; answers(&rt, rt.alloc(), &["run"], input, 0, ONE_AGENT_TEXT, b"")?);
    Ok(())
}

// The body of frame 1 of an agent that is alone.
fn first_step<R: Threads + Wait + Sync>(
    rt: &R,
    alloc: Global,
    agent: &[u8],
    line: &[u8],
) -> Result<bool, Fail> {
    let mut input = bytes_of(alloc, b"crowd,1\nsteps,1\n")?;
    for byte in agent {
        input.reserve(1)?;
        input.push(*byte);
    }
    let ended = run_on(rt, alloc, &["run"], input, NONE)?;
    Ok(ended.status == 0 && ended.out.held().ends_with(line))
}

#[test]
fn corner_of_the_polygon(rt: HostRuntime) -> Result<(), Fail> {
    let agent: &[u8] = b"agent,0,0,0,0,1000,0,500,66,15000,10,10,4\n";
    let line: &[u8] = b"frame,1\nbody,0,65,0,65,0,1000,0,feasible,0\nend,1\n";
    assert!(rt; first_step(&rt, rt.alloc(), agent, line)?);
    Ok(())
}

#[test]
fn polygon_is_one_point(rt: HostRuntime) -> Result<(), Fail> {
    let line: &[u8] = b"frame,1\nbody,0,0,0,0,0,5,0,feasible,0\nend,1\n";
    let still: &[u8] = b"agent,0,0,0,0,5,0,500,0,15000,10,10,4\n";
    assert!(rt; first_step(&rt, rt.alloc(), still, line)?);
    let slow: &[u8] = b"agent,0,0,0,0,5,0,500,1,15000,10,10,4\n";
    assert!(rt; first_step(&rt, rt.alloc(), slow, line)?);
    Ok(())
}

#[test]
fn largest_numbers(rt: HostRuntime) -> Result<(), Fail> {
    let agent: &[u8] = b"agent,4194304,0,0,0,16384,0,32768,16384,65536,64,4096,4096\n";
    let line: &[u8] = b"frame,1\nbody,0,4210687,0,16383,0,16384,0,feasible,0\nend,1\n";
    assert!(rt; first_step(&rt, rt.alloc(), agent, line)?);
    Ok(())
}

// The second step is made from the first, and the preferred velocity of a slanted walk is kept.
#[test]
fn walks_on(rt: HostRuntime) -> Result<(), Fail> {
    let input: &[u8] = b"crowd,1\nsteps,2\nagent,-5,-2,9,9,180,-75,500,400,0,0,1,1\n";
    let line: &[u8] =
        b"frame,1\nbody,0,175,-77,180,-75,180,-75,feasible,0\nframe,2\nbody,0,355,-152,180,-75,180,-75,feasible,0\nend,2\n";
    assert!(rt; ends_with(&rt, rt.alloc(), input, line)?);
    Ok(())
}
