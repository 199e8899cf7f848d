// Each law is called once, and the text of a scenario with posts and goals is read and written again.
use crate::texts::is_written_as;
use crowd_data::Scenario;
use fixed_vec::List;
use std::test::Fail;
use text_law::{one_transcript, reads_back, transcript_reads_back, transcripts_are_accepted};

#[test]
fn laws_of_the_smallest_scenario(rt: HostRuntime) -> Result<(), Fail> {
    let scenario = Scenario::of(
        1,
        36,
        0,
        List::with_room(rt.alloc(), 0)?,
        List::with_room(rt.alloc(), 0)?,
        List::with_room(rt.alloc(), 0)?,
        List::with_room(rt.alloc(), 0)?,
    );
    reads_back(&scenario);
    transcript_reads_back(&scenario, &[]);
    one_transcript(&scenario);
    transcripts_are_accepted(&scenario);
    Ok(())
}

#[test]
fn text_with_posts_and_goals(rt: HostRuntime) -> Result<(), Fail> {
    let text: &[u8] =
        b"crowd,1\nsteps,100\nagent,0,0,0,-900,0,400,500,400,15000,10,10,4\nagent,-9000,0,0,0,0,0,1,0,0,0,1,1\nsegment,-2000,1000,2000,1000\npost,1,1,0,-16384\npost,100,0,7,8\ngoal,15,1,-5,6,300\ngoal,0,0,1,2,0\n";
    assert!(rt; is_written_as(rt.alloc(), text, text)?);
    Ok(())
}

#[test]
fn text_of_version_2(rt: HostRuntime) -> Result<(), Fail> {
    let text: &[u8] =
        b"crowd,2\nsteps,1\nring,60\nagent,0,0,0,0,0,0,500,800,15000,10,10,4,3\nagent,0,0,0,0,0,0,500,800,15000,10,10,4,16\n";
    assert!(rt; is_written_as(rt.alloc(), text, text)?);
    // the plain ring isn't printed
    assert!(rt;
        is_written_as(
            rt.alloc(),
            b"crowd,2\nring,36\nsteps,0\n",
            b"crowd,2\nsteps,0\n"
        )?
    );
    Ok(())
}
