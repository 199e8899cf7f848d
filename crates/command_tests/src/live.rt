// Runs with controllers.
use crate::calls::{answers, are_alike, bytes_of};
use fixed_vec::List;
use orca_cli::offline;
use outside_io::{MemSink, MemSource, OpenGate};
use std::test::Fail;

// One controller with one goal turns once, on frame 0, and its post is taken in before the only step.
#[test]
fn one_controller_with_one_goal(rt: HostRuntime) -> Result<(), Fail> {
    let input: &[u8] =
        b"crowd,1\nsteps,1\nagent,0,0,0,0,0,0,500,400,15000,10,10,4\ngoal,0,0,1000,0,300\n";
    let text: &[u8] =
        b"crowd,1\nsteps,1\nagent,0,0,0,0,0,0,500,400,15000,10,10,4\ngoal,0,0,1000,0,300\nframe,0\nbody,0,0,0,0,0,0,0,start,0\nframe,1\ntake,0,0,0,300,0\nbody,0,300,0,300,0,300,0,feasible,0\nend,1\n";
    assert!(rt;
        answers(
            &rt,
            rt.alloc(),
            &["live", "--workers=2"],
            input,
            0,
            text,
            b""
        )?
    );
    Ok(())
}

// Without goals a run with controllers is the run with the scripted posts.
#[test]
fn no_controller(rt: HostRuntime) -> Result<(), Fail> {
    let input: &[u8] =
        b"crowd,1\nsteps,2\nagent,0,0,0,0,0,0,500,400,15000,10,10,4\npost,1,0,100,0\npost,2,0,0,100\n";
    let words: [&[&str]; 2] = [&["run"], &["live"]];
    assert!(rt; are_alike(&rt, rt.alloc(), words, input)?);
    Ok(())
}

#[test]
fn refused_scenario_runs_no_controller(rt: HostRuntime) -> Result<(), Fail> {
    let input: &[u8] = b"crowd,1\nsteps,1\ngoal,0,0,1000,0,300\n";
    let cause: &[u8] = b"refused: record 2: NoSuchAgent\n";
    assert!(rt; answers(&rt, rt.alloc(), &["live"], input, 3, b"", cause)?);
    Ok(())
}

// The call that waits for nobody knows no such command.
#[test]
fn live_is_no_offline_command(rt: HostRuntime) -> Result<(), Fail> {
    let alloc = rt.alloc();
    let input = bytes_of(alloc, b"crowd,1\nsteps,1\n")?;
    let mut source = MemSource::of(input, 4096, List::with_room(alloc, 0)?);
    let mut out = MemSink::open(alloc, 100, List::with_room(alloc, 0)?)?;
    let mut err = MemSink::open(alloc, 100, List::with_room(alloc, 0)?)?;
    let words = ["live"];
    let status = offline(
        &rt,
        alloc,
        &words,
        &mut source,
        &mut out,
        &mut err,
        &OpenGate,
    );
    assert_eq!(rt; status, 2);
    assert_eq!(rt; out.held(), b"".as_slice());
    assert_eq!(rt;
        err.held(),
        b"usage: crowd run|check|sample|soak|live\n".as_slice()
    );
    Ok(())
}
