// A circle of 36 agents that cross: each is bound for the opposite side.
ghost use Rattle.std.specs.Prelude.{length, ◌<◌};

use crate::calls::bytes_of;
use fixed_vec::List;
use orca_cli::orca;
use outside_io::{MemSink, MemSource, OpenGate};
use std::alloc::Global;
use std::sync::Wait;
use std::test::Fail;
use std::thread::Threads;

/// A quarter of the points that they start from, in thousands of units over three.
const QUARTER: [[i32; 2]; 9] = [
    [65, 0],
    [63, 16],
    [60, 25],
    [56, 33],
    [52, 39],
    [39, 52],
    [33, 56],
    [25, 60],
    [16, 63],
];

// The point of this number: each quarter is the one before, turned left by a right angle.
fn point(number: usize) -> (i32, i32) {
    let [x, y] = QUARTER[number % 9];
    match number / 9 {
        0 => (x, y),
        1 => (-y, x),
        2 => (-x, -y),
        _ => (y, -x),
    }
}

// The scenario's text.
fn circle(alloc: Global, steps: u32) -> Result<String, Fail> {
    let mut text = format!(in alloc; "crowd,1\nsteps,{steps}\n")?;
    for number in 0..36 {
        let (x, y) = point(number);
        let start = (x.wrapping_mul(3000), y.wrapping_mul(3000));
        let pref = (x.wrapping_mul(-7), y.wrapping_mul(-7));
        let line = format!(in alloc;
            "agent,{},{},0,0,{},{},1500,500,15000,10,40,10\n",
            start.0, start.1, pref.0, pref.1
        )?;
        text.push_str(line.as_str())?;
    }
    for number in 0..36 {
        let (x, y) = point(number);
        let at = (x.wrapping_mul(-3000), y.wrapping_mul(-3000));
        let line = format!(in alloc; "goal,{},{number},{},{},450\n", number % 4, at.0, at.1)?;
        text.push_str(line.as_str())?;
    }
    Ok(text)
}

// What the words write of the circle.
fn written<R: Threads + Wait + Sync>(
    rt: &R,
    alloc: Global,
    words: &[&str],
    steps: u32,
) -> Result<MemSink, Fail> {
    let text = circle(alloc, steps)?;
    let mut source = MemSource::of(
        bytes_of(alloc, text.as_bytes())?,
        4096,
        List::with_room(alloc, 0)?,
    );
    let mut out = MemSink::open(alloc, 1_000_000, List::with_room(alloc, 0)?)?;
    let mut err = MemSink::open(alloc, 100, List::with_room(alloc, 0)?)?;
    let _status = orca(rt, alloc, words, &mut source, &mut out, &mut err, &OpenGate);
    Ok(out)
}

fn count_lines(bytes: &[u8]) -> usize {
    bytes.iter().filter(|byte| **byte == b'\n').count()
}

// Whether they write just this of it.
fn is_written<R: Threads + Wait + Sync>(
    rt: &R,
    alloc: Global,
    words: &[&str],
    steps: u32,
    wanted: &[u8],
) -> Result<bool, Fail> {
    Ok(written(rt, alloc, words, steps)?.held() == wanted)
}

// Whether these lines stand in what they write of it.
fn has_lines<R: Threads + Wait + Sync>(
    rt: &R,
    alloc: Global,
    words: &[&str],
    steps: u32,
    lines: &[u8],
) -> Result<bool, Fail>
    requires { 0 < length lines.now }
{
    Ok(
        written(rt, alloc, words, steps)?
            .held()
            .windows(lines.len())
            .any(|window| window == lines),
    )
}

// How many bytes and lines a run of it writes.
fn size_of_run<R: Threads + Wait + Sync>(
    rt: &R,
    alloc: Global,
    steps: u32,
) -> Result<(usize, usize), Fail> {
    let out = written(rt, alloc, &["run"], steps)?;
    Ok((out.held().len(), count_lines(out.held())))
}

// Whether they write the same of it as a run with one worker.
fn is_same_run<R: Threads + Wait + Sync>(
    rt: &R,
    alloc: Global,
    words: &[&str],
    steps: u32,
) -> Result<bool, Fail> {
    let one = written(rt, alloc, &["run"], steps)?;
    is_written(rt, alloc, words, steps, one.held())
}

#[test]
fn size_of_the_circle(rt: HostRuntime) -> Result<(), Fail> {
    let size: &[u8] = b"accepted,36,0,0,36,400\n";
    assert!(rt; is_written(&rt, rt.alloc(), &["check"], 400, size)?);
    Ok(())
}

// In the first frame nobody has a neighbour in range.
#[test]
fn first_frame_of_the_circle(rt: HostRuntime) -> Result<(), Fail> {
    let lines: &[u8] =
        b"frame,1\nbody,0,194545,0,-455,0,-455,0,feasible,0\nbody,1,188559,47888,-441,-112,-441,-112,feasible,0\n";
    assert!(rt; has_lines(&rt, rt.alloc(), &["run"], 1, lines)?);
    Ok(())
}

#[test]
fn workers_write_the_same_circle(rt: HostRuntime) -> Result<(), Fail> {
    let size = size_of_run(&rt, rt.alloc(), 400)?;
    assert_eq!(rt; size, (715_920, 14_912));
    assert!(rt; is_same_run(&rt, rt.alloc(), &["run", "--workers=2"], 400)?);
    assert!(rt; is_same_run(&rt, rt.alloc(), &["run", "--workers=7"], 400)?);
    Ok(())
}
