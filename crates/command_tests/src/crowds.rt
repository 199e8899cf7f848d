// Runs of agents that see each other. The frames were computed by hand, or from the definitions by a program
// of another make.
use crate::calls::ends_with;
use std::test::Fail;

#[test]
fn arc(rt: HostRuntime) -> Result<(), Fail> {
    let input: &[u8] =
        b"crowd,1\nsteps,1\nagent,0,0,200,0,200,0,500,400,15000,10,10,4\nagent,10000,0,-200,0,-200,0,500,400,15000,10,10,4\n";
    let lines: &[u8] =
        b"frame,1\nbody,0,200,0,200,0,200,0,feasible,0\nbody,1,9800,0,-200,0,-200,0,feasible,0\nend,1\n";
    assert!(rt; ends_with(&rt, rt.alloc(), input, lines)?);
    Ok(())
}

#[test]
fn right_leg(rt: HostRuntime) -> Result<(), Fail> {
    let input: &[u8] =
        b"crowd,1\nsteps,1\nagent,0,0,200,0,200,0,500,400,15000,10,10,4\nagent,3000,0,-200,0,-200,0,500,400,15000,10,10,4\n";
    let lines: &[u8] =
        b"frame,1\nbody,0,178,-63,178,-63,200,0,feasible,0\nbody,1,2822,63,-178,63,-200,0,feasible,0\nend,1\n";
    assert!(rt; ends_with(&rt, rt.alloc(), input, lines)?);
    Ok(())
}

#[test]
fn touching(rt: HostRuntime) -> Result<(), Fail> {
    let input: &[u8] =
        b"crowd,1\nsteps,1\nagent,0,0,0,0,100,0,500,400,15000,10,10,4\nagent,1000,0,0,0,-100,0,500,400,15000,10,10,4\n";
    let lines: &[u8] =
        b"frame,1\nbody,0,0,0,0,0,100,0,feasible,0\nbody,1,1001,0,1,0,-100,0,feasible,0\nend,1\n";
    assert!(rt; ends_with(&rt, rt.alloc(), input, lines)?);
    Ok(())
}

#[test]
fn relief(rt: HostRuntime) -> Result<(), Fail> {
    let input: &[u8] =
        b"crowd,1\nsteps,1\nagent,0,0,0,0,0,0,500,400,15000,10,10,4\nagent,1000,0,0,0,100,0,500,400,15000,10,10,4\nagent,2000,0,0,0,0,0,500,400,15000,10,10,4\n";
    let lines: &[u8] =
        b"frame,1\nbody,0,0,0,0,0,0,0,feasible,0\nbody,1,1001,0,1,0,100,0,fallback,1\nbody,2,2001,0,1,0,0,0,feasible,0\nend,1\n";
    assert!(rt; ends_with(&rt, rt.alloc(), input, lines)?);
    Ok(())
}

#[test]
fn one_place(rt: HostRuntime) -> Result<(), Fail> {
    let input: &[u8] =
        b"crowd,1\nsteps,1\nagent,0,0,0,0,0,0,500,600,15000,10,10,4\nagent,0,0,0,0,0,0,500,600,15000,10,10,4\n";
    let lines: &[u8] =
        b"frame,1\nbody,0,501,0,501,0,0,0,feasible,0\nbody,1,-501,0,-501,0,0,0,feasible,0\nend,1\n";
    assert!(rt; ends_with(&rt, rt.alloc(), input, lines)?);
    let slow: &[u8] =
        b"crowd,1\nsteps,1\nagent,0,0,0,0,0,0,500,400,15000,10,10,4\nagent,0,0,0,0,0,0,500,400,15000,10,10,4\n";
    let fallback: &[u8] =
        b"frame,1\nbody,0,399,0,399,0,0,0,fallback,102\nbody,1,-399,0,-399,0,0,0,fallback,102\nend,1\n";
    assert!(rt; ends_with(&rt, rt.alloc(), slow, fallback)?);
    Ok(())
}

// The first agent sees one neighbour, and a third is near: it isn't any more one unit farther off.
#[test]
fn crowded(rt: HostRuntime) -> Result<(), Fail> {
    let near: &[u8] =
        b"crowd,1\nsteps,1\nagent,0,0,0,0,0,0,500,400,15000,1,10,4\nagent,1500,0,0,0,0,0,500,400,15000,10,10,4\nagent,0,1700,0,0,0,0,500,400,15000,10,10,4\n";
    let crowded: &[u8] =
        b"frame,1\nbody,0,0,0,0,0,0,0,crowded,0\nbody,1,1500,0,0,0,0,0,feasible,0\nbody,2,0,1700,0,0,0,0,feasible,0\nend,1\n";
    assert!(rt; ends_with(&rt, rt.alloc(), near, crowded)?);
    let far: &[u8] =
        b"crowd,1\nsteps,1\nagent,0,0,0,0,0,0,500,400,15000,1,10,4\nagent,1500,0,0,0,0,0,500,400,15000,10,10,4\nagent,0,1801,0,0,0,0,500,400,15000,10,10,4\n";
    let feasible: &[u8] =
        b"frame,1\nbody,0,0,0,0,0,0,0,feasible,0\nbody,1,1500,0,0,0,0,0,feasible,0\nbody,2,0,1801,0,0,0,0,feasible,0\nend,1\n";
    assert!(rt; ends_with(&rt, rt.alloc(), far, feasible)?);
    Ok(())
}

// Of two agents at one distance the one with the lower number is the neighbour.
#[test]
fn tie(rt: HostRuntime) -> Result<(), Fail> {
    let input: &[u8] =
        b"crowd,1\nsteps,1\nagent,0,0,0,0,100,0,500,400,15000,1,10,4\nagent,1200,0,0,0,0,0,500,400,15000,10,10,4\nagent,-1200,0,0,0,0,0,500,400,15000,10,10,4\n";
    let lines: &[u8] =
        b"frame,1\nbody,0,10,0,10,0,100,0,crowded,0\nbody,1,1200,0,0,0,0,0,feasible,0\nbody,2,-1200,0,0,0,0,0,feasible,0\nend,1\n";
    assert!(rt; ends_with(&rt, rt.alloc(), input, lines)?);
    Ok(())
}

#[test]
fn four_ways_meet_beside_a_wall(rt: HostRuntime) -> Result<(), Fail> {
    let input: &[u8] =
        b"crowd,1\nsteps,30\nagent,-4000,100,0,0,300,0,500,400,15000,10,10,4\nagent,4000,0,0,0,-300,0,500,400,15000,10,10,4\nagent,0,-4000,0,0,0,300,500,400,15000,10,10,4\nagent,0,4000,0,0,0,-300,500,400,15000,10,10,4\nsegment,1500,1500,3000,3000\n";
    let lines: &[u8] =
        b"frame,30\nbody,0,3044,659,300,0,300,0,feasible,0\nbody,1,-3175,-713,-300,0,-300,0,feasible,0\nbody,2,-731,3225,0,300,0,300,feasible,0\nbody,3,751,-3138,0,-300,0,-300,feasible,0\nend,30\n";
    assert!(rt; ends_with(&rt, rt.alloc(), input, lines)?);
    Ok(())
}

#[test]
fn two_meet_in_a_corridor(rt: HostRuntime) -> Result<(), Fail> {
    let input: &[u8] =
        b"crowd,1\nsteps,25\nagent,-3000,0,0,0,300,0,500,400,15000,10,10,4\nagent,3000,0,0,0,-300,0,500,400,15000,10,10,4\nsegment,-1500,510,1500,510\nsegment,-1500,-510,1500,-510\n";
    let lines: &[u8] =
        b"frame,25\nbody,0,-1067,0,63,0,300,0,feasible,0\nbody,1,1068,0,-62,0,-300,0,feasible,0\nend,25\n";
    assert!(rt; ends_with(&rt, rt.alloc(), input, lines)?);
    Ok(())
}
