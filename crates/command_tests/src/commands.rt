// The commands and their words.
use crate::calls::{answers, are_alike};
use std::test::Fail;

const ONE_AGENT: &[u8] = b"crowd,1\nsteps,1\nagent,0,0,0,0,300,0,500,400,15000,0,10,4\n";

const USAGE: &[u8] = b"usage: crowd run|check|sample|soak|live\n";

#[test]
fn words_that_are_no_command(rt: HostRuntime) -> Result<(), Fail> {
    let lists: [&[&str]; 13] = [
        &[],
        &["walk"],
        &["Run"],
        &["live", "extra"],
        &["run", "extra"],
        &["run", "--workers", "0"],
        &["run", "--workers", "65"],
        &["run", "--workers"],
        &["run", "--workers", "2", "--workers", "2"],
        &["run", "--"],
        &["check", "--workers", "1"],
        &["sample", "--number", "0", "--agents", "1"],
        &[
            "sample",
            "--number",
            "00000000007",
            "--agents",
            "1",
            "--steps",
            "1",
        ],
    ];
    for words in lists.iter() {
        assert!(rt; answers(&rt, rt.alloc(), words, ONE_AGENT, 2, b"", USAGE)?);
    }
    Ok(())
}

#[test]
fn workers_change_no_byte(rt: HostRuntime) -> Result<(), Fail> {
    let words: [&[&str]; 2] = [&["run"], &["run", "--workers=3"]];
    assert!(rt; are_alike(&rt, rt.alloc(), words, ONE_AGENT)?);
    Ok(())
}

#[test]
fn check_says_how_large_a_scenario_is(rt: HostRuntime) -> Result<(), Fail> {
    let input: &[u8] =
        b"crowd,1\nsteps,7\nagent,0,0,0,0,0,0,500,400,15000,10,10,4\nsegment,-2000,500,2000,500\npost,1,0,100,0\npost,1,0,0,100\ngoal,3,0,9,9,5\n";
    let size: &[u8] = b"accepted,1,1,2,1,7\n";
    assert!(rt; answers(&rt, rt.alloc(), &["check"], input, 0, size, b"")?);
    let cause: &[u8] = b"refused: record 1: NoSteps\n";
    assert!(rt; answers(&rt, rt.alloc(), &["check"], b"crowd,1\n", 3, b"", cause)?);
    Ok(())
}

// Nothing is read: the input is no scenario.
#[test]
fn sample_of_one_agent(rt: HostRuntime) -> Result<(), Fail> {
    let words = ["sample", "--steps", "0", "--number=0", "--agents", "01"];
    let text: &[u8] =
        b"crowd,1\nsteps,0\nagent,-2426,-1881,0,0,198,179,595,333,15000,10,40,10\nsegment,-5000,-5000,5000,-5000\nsegment,5000,-5000,5000,5000\nsegment,5000,5000,-5000,5000\nsegment,-5000,5000,-5000,-5000\ngoal,0,0,2426,1881,333\n";
    assert!(rt; answers(&rt, rt.alloc(), &words, b"nothing", 0, text, b"")?);
    Ok(())
}

#[test]
fn soak_of_one_agent(rt: HostRuntime) -> Result<(), Fail> {
    let words = ["soak", "--number", "0", "--agents", "1", "--steps", "1"];
    let line: &[u8] = b"soak,1,1,1,0,0,0,0,-2228,-1702\n";
    assert!(rt; answers(&rt, rt.alloc(), &words, b"nothing", 0, line, b"")?);
    let none = ["soak", "--number", "0", "--agents", "1", "--steps", "0"];
    let line: &[u8] = b"soak,0,1,0,0,0,0,0,-2426,-1881\n";
    assert!(rt; answers(&rt, rt.alloc(), &none, b"nothing", 0, line, b"")?);
    Ok(())
}

#[test]
fn soak_of_four_thousand_agents(rt: HostRuntime) -> Result<(), Fail> {
    let words = [
        "soak",
        "--steps=50",
        "--workers",
        "4",
        "--agents",
        "4000",
        "--number=7",
    ];
    let line: &[u8] = b"soak,50,4000,191839,8161,0,0,36,-10174290,-20523825\n";
    assert!(rt; answers(&rt, rt.alloc(), &words, b"nothing", 0, line, b"")?);
    Ok(())
}
