// Runs among walls, and of several agents that look for no neighbours. The frames were computed by hand
// or from the definitions by a program of another make.
use crate::calls::ends_with;
use std::test::Fail;

#[test]
fn wall_foot_inside(rt: HostRuntime) -> Result<(), Fail> {
    let input: &[u8] =
        b"crowd,1\nsteps,1\nagent,0,0,0,0,0,300,500,400,15000,10,10,4\nsegment,-2000,800,2000,800\n";
    let lines: &[u8] = b"frame,1\nbody,0,0,75,0,75,0,300,feasible,0\nend,1\n";
    assert!(rt; ends_with(&rt, rt.alloc(), input, lines)?);
    Ok(())
}

#[test]
fn wall_nearest_end(rt: HostRuntime) -> Result<(), Fail> {
    let lines: &[u8] = b"frame,1\nbody,0,125,0,125,0,300,0,feasible,0\nend,1\n";
    let end: &[u8] =
        b"crowd,1\nsteps,1\nagent,0,0,0,0,300,0,500,400,15000,10,10,4\nsegment,1000,0,2000,0\n";
    assert!(rt; ends_with(&rt, rt.alloc(), end, lines)?);
    // A segment that is one point keeps off as its end would.
    let point: &[u8] =
        b"crowd,1\nsteps,1\nagent,0,0,0,0,300,0,500,400,15000,10,10,4\nsegment,1000,0,1000,0\n";
    assert!(rt; ends_with(&rt, rt.alloc(), point, lines)?);
    Ok(())
}

#[test]
fn no_room(rt: HostRuntime) -> Result<(), Fail> {
    let input: &[u8] =
        b"crowd,1\nsteps,1\nagent,0,0,0,0,100,0,500,400,15000,10,10,4\nsegment,-2000,500,2000,500\nsegment,-2000,-500,2000,-500\n";
    let lines: &[u8] = b"frame,1\nbody,0,0,0,0,0,100,0,stopped,0\nend,1\n";
    assert!(rt; ends_with(&rt, rt.alloc(), input, lines)?);
    Ok(())
}

// A gap of 1,004 units lets a disc of radius 500 pass, one of 1,002 doesn't: rounding needs a unit on each
// side.
#[test]
fn between_two_walls(rt: HostRuntime) -> Result<(), Fail> {
    let wide: &[u8] =
        b"crowd,1\nsteps,2\nagent,0,0,0,0,100,30,500,400,15000,10,10,4\nsegment,-2000,502,2000,502\nsegment,-2000,-502,2000,-502\n";
    let passes: &[u8] =
        b"frame,1\nbody,0,100,0,100,0,100,30,feasible,0\nframe,2\nbody,0,200,0,100,0,100,30,feasible,0\nend,2\n";
    assert!(rt; ends_with(&rt, rt.alloc(), wide, passes)?);
    let narrow: &[u8] =
        b"crowd,1\nsteps,1\nagent,0,0,0,0,100,30,500,400,15000,10,10,4\nsegment,-2000,501,2000,501\nsegment,-2000,-501,2000,-501\n";
    let stands: &[u8] = b"frame,1\nbody,0,0,0,0,0,100,30,stopped,0\nend,1\n";
    assert!(rt; ends_with(&rt, rt.alloc(), narrow, stands)?);
    Ok(())
}

#[test]
fn slides_along_a_wall_that_it_touches(rt: HostRuntime) -> Result<(), Fail> {
    let input: &[u8] =
        b"crowd,1\nsteps,2\nagent,0,0,0,0,100,50,500,400,15000,10,10,4\nsegment,-2000,500,2000,500\n";
    let lines: &[u8] =
        b"frame,1\nbody,0,100,0,100,0,100,50,feasible,0\nframe,2\nbody,0,200,0,100,0,100,50,feasible,0\nend,2\n";
    assert!(rt; ends_with(&rt, rt.alloc(), input, lines)?);
    Ok(())
}

// Two walls that meet at less than a right angle: the disc comes to rest 2,073 units from the corner, where
// it is 502.7 from both.
#[test]
fn acute_corner(rt: HostRuntime) -> Result<(), Fail> {
    let input: &[u8] =
        b"crowd,1\nsteps,23\nagent,-3000,0,0,0,300,40,500,400,15000,10,10,4\nsegment,0,0,-6000,1500\nsegment,0,0,-6000,-1500\n";
    let lines: &[u8] =
        b"frame,21\nbody,0,-2074,0,1,0,300,40,feasible,0\nframe,22\nbody,0,-2073,0,1,0,300,40,feasible,0\nframe,23\nbody,0,-2073,0,0,0,300,40,feasible,0\nend,23\n";
    assert!(rt; ends_with(&rt, rt.alloc(), input, lines)?);
    Ok(())
}

#[test]
fn slanted_wall_for_a_thousand_steps(rt: HostRuntime) -> Result<(), Fail> {
    let input: &[u8] =
        b"crowd,1\nsteps,1000\nagent,0,0,0,0,250,250,500,400,0,0,1,4\nsegment,-3000,-700,350000,186300\n";
    let lines: &[u8] = b"frame,1000\nbody,0,298559,158480,298,159,250,250,feasible,0\nend,1000\n";
    assert!(rt; ends_with(&rt, rt.alloc(), input, lines)?);
    Ok(())
}

// The first two could touch within a step, and neither looks at the other; the third is one unit farther
// than near.
#[test]
fn crowded(rt: HostRuntime) -> Result<(), Fail> {
    let input: &[u8] =
        b"crowd,1\nsteps,1\nagent,0,0,0,0,100,0,500,400,15000,0,10,4\nagent,1800,0,0,0,-5,0,500,400,15000,0,10,4\nagent,3601,0,0,0,0,7,500,400,15000,0,10,4\n";
    let lines: &[u8] =
        b"frame,1\nbody,0,100,0,100,0,100,0,crowded,0\nbody,1,1795,0,-5,0,-5,0,crowded,0\nbody,2,3601,7,0,7,0,7,feasible,0\nend,1\n";
    assert!(rt; ends_with(&rt, rt.alloc(), input, lines)?);
    Ok(())
}

// Standing still between two walls doesn't keep an agent from being crowded.
#[test]
fn crowded_where_it_stands(rt: HostRuntime) -> Result<(), Fail> {
    let input: &[u8] =
        b"crowd,1\nsteps,1\nagent,0,0,0,0,100,0,500,400,15000,0,10,4\nagent,1200,0,0,0,0,0,500,0,0,0,1,1\nsegment,-2000,500,2000,500\nsegment,-2000,-500,2000,-500\n";
    let lines: &[u8] =
        b"frame,1\nbody,0,0,0,0,0,100,0,crowded,0\nbody,1,1200,0,0,0,0,0,crowded,0\nend,1\n";
    assert!(rt; ends_with(&rt, rt.alloc(), input, lines)?);
    Ok(())
}
