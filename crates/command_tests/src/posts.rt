// Runs with scripted posts and with goals.
use crate::calls::{answers, ends_with};
use std::test::Fail;

// Two posts for one agent in one frame: the last one wins, and both are printed.
#[test]
fn last_of_two_posts_wins(rt: HostRuntime) -> Result<(), Fail> {
    let input: &[u8] =
        b"crowd,1\nsteps,1\nagent,0,0,0,0,0,0,500,400,15000,10,10,4\npost,1,0,100,0\npost,1,0,0,100\n";
    let lines: &[u8] =
        b"frame,1\ntake,16,0,0,100,0\ntake,16,1,0,0,100\nbody,0,0,100,0,100,0,100,feasible,0\nend,1\n";
    assert!(rt; ends_with(&rt, rt.alloc(), input, lines)?);
    Ok(())
}

// Posts of several frames, one of them without any: each stands in the frame that it is for, numbered by
// its place among all posts, and the preferred velocity stays until the next one.
#[test]
fn each_post_stands_in_its_frame(rt: HostRuntime) -> Result<(), Fail> {
    let input: &[u8] =
        b"crowd,1\nsteps,3\nagent,0,0,0,0,0,0,500,400,15000,10,10,4\npost,1,0,100,0\npost,3,0,0,-200\n";
    let lines: &[u8] =
        b"frame,1\ntake,16,0,0,100,0\nbody,0,100,0,100,0,100,0,feasible,0\nframe,2\nbody,0,200,0,100,0,100,0,feasible,0\nframe,3\ntake,16,1,0,0,-200\nbody,0,200,-200,0,-200,0,-200,feasible,0\nend,3\n";
    assert!(rt; ends_with(&rt, rt.alloc(), input, lines)?);
    Ok(())
}

// A goal is printed with the scenario, and not acted on.
#[test]
fn goals_are_carried(rt: HostRuntime) -> Result<(), Fail> {
    let input: &[u8] =
        b"crowd,1\nsteps,1\nagent,0,0,0,0,0,0,500,400,15000,10,10,4\ngoal,0,0,1000,0,300\n";
    let text: &[u8] =
        b"crowd,1\nsteps,1\nagent,0,0,0,0,0,0,500,400,15000,10,10,4\ngoal,0,0,1000,0,300\nframe,0\nbody,0,0,0,0,0,0,0,start,0\nframe,1\nbody,0,0,0,0,0,0,0,feasible,0\nend,1\n";
    assert!(rt; answers(&rt, rt.alloc(), &["run"], input, 0, text, b"")?);
    let early: &[u8] =
        b"crowd,1\nsteps,1\ngoal,0,0,1000,0,300\nagent,0,0,0,0,0,0,500,400,15000,10,10,4\n";
    let cause: &[u8] = b"refused: record 2: NoSuchAgent\n";
    assert!(rt; answers(&rt, rt.alloc(), &["run"], early, 3, b"", cause)?);
    Ok(())
}
