// Scenarios of version 2: weights, and the finer ring.
use crate::calls::{answers, ends_with};
use std::test::Fail;

// Two discs at one place lack 1000: the one with three parts of four takes 750 of it, drawn in 751.
#[test]
fn weights_split_what_is_lacking(rt: HostRuntime) -> Result<(), Fail> {
    let input: &[u8] =
        b"crowd,2\nsteps,1\nagent,0,0,0,0,0,0,500,800,15000,10,10,4,3\nagent,0,0,0,0,0,0,500,800,15000,10,10,4,1\n";
    let lines: &[u8] =
        b"frame,1\nbody,0,751,0,751,0,0,0,feasible,0\nbody,1,-251,0,-251,0,0,0,feasible,0\nend,1\n";
    assert!(rt; ends_with(&rt, rt.alloc(), input, lines)?);
    Ok(())
}

// Two that meet head-on have 3,000,000 to spare: the greater weight takes the greater part of it, 16 of 17.
#[test]
fn a_walker_meets_a_lorry(rt: HostRuntime) -> Result<(), Fail> {
    let input: &[u8] =
        b"crowd,2\nsteps,1\nagent,0,0,200,0,300,0,500,400,15000,10,10,4,1\nagent,10000,0,-200,0,-300,0,500,400,15000,10,10,4,16\n";
    let lines: &[u8] =
        b"frame,1\nbody,0,229,0,229,0,300,0,feasible,0\nbody,1,9700,0,-300,0,-300,0,feasible,0\nend,1\n";
    assert!(rt; ends_with(&rt, rt.alloc(), input, lines)?);
    let exchanged: &[u8] =
        b"crowd,2\nsteps,1\nagent,0,0,200,0,300,0,500,400,15000,10,10,4,16\nagent,10000,0,-200,0,-300,0,500,400,15000,10,10,4,1\n";
    let lines: &[u8] =
        b"frame,1\nbody,0,300,0,300,0,300,0,feasible,0\nbody,1,9771,0,-229,0,-300,0,feasible,0\nend,1\n";
    assert!(rt; ends_with(&rt, rt.alloc(), exchanged, lines)?);
    Ok(())
}

// A corner of the finer polygon is reached, and with the plain one the corner of that.
#[test]
fn finer_ring(rt: HostRuntime) -> Result<(), Fail> {
    let fine: &[u8] =
        b"crowd,2\nsteps,1\nring,60\nagent,0,0,0,0,3230,360,500,326,15000,10,10,4,1\n";
    let lines: &[u8] = b"frame,1\nbody,0,323,36,323,36,3230,360,feasible,0\nend,1\n";
    assert!(rt; ends_with(&rt, rt.alloc(), fine, lines)?);
    let plain: &[u8] = b"crowd,2\nsteps,1\nagent,0,0,0,0,3230,360,500,326,15000,10,10,4,1\n";
    let lines: &[u8] = b"frame,1\nbody,0,325,0,325,0,3230,360,feasible,0\nend,1\n";
    assert!(rt; ends_with(&rt, rt.alloc(), plain, lines)?);
    Ok(())
}

#[test]
fn refusals_of_versions(rt: HostRuntime) -> Result<(), Fail> {
    let refusals: [(&[u8], &[u8]); 6] = [
        (
            b"crowd,1\nsteps,1\nagent,0,0,0,0,0,0,500,800,15000,10,10,4,3\n",
            b"refused: record 2: FieldCount\n",
        ),
        (
            b"crowd,2\nsteps,1\nagent,0,0,0,0,0,0,500,800,15000,10,10,4,17\n",
            b"refused: record 2: OutOfRange field 13\n",
        ),
        (b"crowd,3\nsteps,1\n", b"refused: record 0: NoHeader\n"),
        (
            b"crowd,2\nsteps,1\nring,60\nring,60\n",
            b"refused: record 3: RingTwice\n",
        ),
        (
            b"crowd,2\nsteps,1\nring,48\n",
            b"refused: record 2: OutOfRange field 1\n",
        ),
        (
            b"crowd,1\nsteps,1\nring,36\n",
            b"refused: record 2: UnknownKind\n",
        ),
    ];
    for (input, line) in refusals {
        assert!(rt; answers(&rt, rt.alloc(), &["run"], input, 3, b"", line)?);
    }
    Ok(())
}
