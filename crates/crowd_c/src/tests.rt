// A step as a caller from C makes it.
use crate::{CrowdFault, crowd_step, crowd_step_part};
use array_step::CrowdAgent;
use std::test::Fail;

const WALKER: CrowdAgent = CrowdAgent {
    x: 0,
    y: 0,
    vel_x: 0,
    vel_y: 0,
    pref_x: 300,
    pref_y: 0,
    radius: 500,
    speed: 400,
    range: 15_000,
    most: 10,
    horizon: 10,
    wall_horizon: 4,
    weight: 0,
    mark: 77,
    relief: 77,
};

const UNTOUCHED: CrowdFault = CrowdFault {
    cause: 77,
    agent: 77,
    field: 77,
    segment: 77,
};

#[test]
fn is_done_with_ample_memory(rt: HostRuntime) -> Result<(), Fail> {
    let walked = CrowdAgent {
        x: 300,
        vel_x: 300,
        mark: 1,
        relief: 0,
        ..WALKER
    };
    let mut agents = [WALKER];
    let mut part = [WALKER];
    let mut fault = UNTOUCHED;
    let status = crowd_step_part(rt.alloc(), &agents, &[], 0, 0, &mut part, &mut fault);
    assert_eq!(rt; status, 0);
    assert_eq!(rt; part, [walked]);
    let status = crowd_step(rt.alloc(), &mut agents, &[], 0, &mut fault);
    assert_eq!(rt; status, 0);
    assert_eq!(rt; agents, [walked]);
    assert_eq!(rt; fault, UNTOUCHED);
    Ok(())
}
