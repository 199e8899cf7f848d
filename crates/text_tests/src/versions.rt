// Scenarios of version 2, and inputs that stand for none because of what is new in it.
use crate::texts::{Refusal, first_not_refused, has_weights, head_of, is_refused};
use scenario_read::Cause;
use std::test::Fail;

#[test]
fn reads_weights(rt: HostRuntime) -> Result<(), Fail> {
    let text: &[u8] =
        b"crowd,2\nsteps,1\nagent,0,0,0,0,0,0,500,800,15000,10,10,4,3\nagent,0,0,0,0,0,0,500,800,15000,10,10,4,16\n";
    assert_eq!(rt; head_of(rt.alloc(), text)?, [2, 36, 1]);
    assert!(rt; has_weights(rt.alloc(), text, &[3, 16])?);
    Ok(())
}

#[test]
fn version_1_has_weights_of_1(rt: HostRuntime) -> Result<(), Fail> {
    let alloc = rt.alloc();
    let text: &[u8] = b"crowd,1\nsteps,1\nagent,0,0,0,0,0,0,500,800,15000,10,10,4\n";
    assert_eq!(rt; head_of(alloc, text)?, [1, 36, 1]);
    assert!(rt; has_weights(alloc, text, &[1])?);
    assert!(rt;
        is_refused(
            alloc,
            b"crowd,1\nsteps,1\nagent,0,0,0,0,0,0,500,800,15000,10,10,4,1\n",
            2,
            Cause::FieldCount
        )
    );
    Ok(())
}

#[test]
fn keeps_the_limits_of_a_weight(rt: HostRuntime) {
    let rows: [Refusal; 5] = [
        (
            b"crowd,2\nsteps,1\nagent,0,0,0,0,0,0,500,800,15000,10,10,4,17\n",
            2,
            Cause::OutOfRange { field: 13 },
        ),
        (
            b"crowd,2\nsteps,1\nagent,0,0,0,0,0,0,500,800,15000,10,10,4,0\n",
            2,
            Cause::OutOfRange { field: 13 },
        ),
        (
            b"crowd,2\nsteps,1\nagent,0,0,0,0,0,0,500,800,15000,10,10,4\n",
            2,
            Cause::FieldCount,
        ),
        (b"crowd,3\nsteps,1\n", 0, Cause::NoHeader),
        (b"crowd,02\nsteps,1\n", 0, Cause::NoHeader),
    ];
    assert_eq!(rt; first_not_refused(rt.alloc(), &rows), None);
}

#[test]
fn reads_the_ring(rt: HostRuntime) -> Result<(), Fail> {
    let alloc = rt.alloc();
    assert_eq!(rt; head_of(alloc, b"crowd,2\nring,60\nsteps,1\n")?, [2, 60, 1]);
    assert_eq!(rt;
        head_of(alloc, b"crowd,2\nsteps,1\nring,036\n")?,
        [2, 36, 1]
    );
    Ok(())
}

#[test]
fn names_the_first_cause_of_a_ring(rt: HostRuntime) {
    let rows: [Refusal; 6] = [
        (b"crowd,2\nsteps,1\nring,60\nring,60\n", 3, Cause::RingTwice),
        (
            b"crowd,2\nsteps,1\nring,48\n",
            2,
            Cause::OutOfRange { field: 1 },
        ),
        (
            b"crowd,2\nsteps,1\nring,60\nring,61\n",
            3,
            Cause::OutOfRange { field: 1 },
        ),
        (
            b"crowd,2\nsteps,1\nring,x\n",
            2,
            Cause::NotANumber { field: 1 },
        ),
        (b"crowd,2\nsteps,1\nring\n", 2, Cause::FieldCount),
        (b"crowd,1\nsteps,1\nring,60\n", 2, Cause::UnknownKind),
    ];
    assert_eq!(rt; first_not_refused(rt.alloc(), &rows), None);
}
