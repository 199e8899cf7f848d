// Steps of a few agents, and arrays that are refused.
use array_step::{
    ArrayFault, CrowdAgent, CrowdSegment, StepFault, one_step, parts_make_a_step, step, step_part,
};
use std::test::Fail;

const WALKER: CrowdAgent = CrowdAgent {
    x: 0,
    y: 0,
    vel_x: 0,
    vel_y: 0,
    pref_x: 300,
    pref_y: 0,
    radius: 500,
    speed: 400,
    range: 15_000,
    most: 10,
    horizon: 10,
    wall_horizon: 4,
    weight: 0,
    mark: 77,
    relief: 77,
};

const WALL: CrowdSegment = CrowdSegment {
    ax: -2_000,
    ay: 500,
    bx: 2_000,
    by: 500,
};

fn refused(fault: ArrayFault) -> Result<(), StepFault> {
    Err(StepFault::Arrays(fault))
}

#[test]
fn walks_on(rt: HostRuntime) -> Result<(), Fail> {
    let mut agents = [WALKER];
    for x in [300, 600, 900] {
        assert_eq!(rt; step(rt.alloc(), &mut agents, &[WALL], 0), Ok(()));
        assert_eq!(rt;
            agents[0],
            CrowdAgent {
                x,
                vel_x: 300,
                mark: 1,
                relief: 0,
                ..WALKER
            }
        );
    }
    Ok(())
}

// Each is near the other in the state that is handed in, and far in the next one.
#[test]
fn advice_is_of_the_frozen_state(rt: HostRuntime) -> Result<(), Fail> {
    let mut agents = [
        CrowdAgent {
            range: 0,
            most: 0,
            pref_x: -300,
            ..WALKER
        },
        CrowdAgent {
            range: 0,
            most: 0,
            x: 1_800,
            pref_x: 0,
            ..WALKER
        },
    ];
    assert_eq!(rt; step(rt.alloc(), &mut agents, &[], 60), Ok(()));
    assert_eq!(rt; agents[0].x, -300);
    assert_eq!(rt; agents[0].mark, 4);
    assert_eq!(rt; agents[1].mark, 4);
    assert_eq!(rt; step(rt.alloc(), &mut agents, &[], 60), Ok(()));
    assert_eq!(rt; agents[0].mark, 1);
    assert_eq!(rt; agents[1].mark, 1);
    Ok(())
}

#[test]
fn refuses_with_the_first_cause(rt: HostRuntime) -> Result<(), Fail> {
    let far = CrowdAgent {
        x: -2_147_483_648,
        ..WALKER
    };
    let thin = CrowdAgent {
        radius: 0,
        horizon: 0,
        ..WALKER
    };
    let heavy = CrowdAgent {
        weight: 17,
        ..WALKER
    };
    let below = CrowdSegment { ay: 499, ..WALL };
    let wide = CrowdSegment {
        bx: 4_194_305,
        ..WALL
    };
    let outside = |agent, field| refused(ArrayFault::AgentOutOfRange { agent, field });
    let mut agents = [WALKER, far, thin];
    assert_eq!(rt;
        step(rt.alloc(), &mut agents, &[wide], 37),
        refused(ArrayFault::NoSuchRing)
    );
    assert_eq!(rt; step(rt.alloc(), &mut agents, &[wide], 0), outside(1, 0));
    let mut agents = [WALKER, WALKER, thin];
    assert_eq!(rt; step(rt.alloc(), &mut agents, &[wide], 36), outside(2, 6));
    let mut agents = [WALKER, heavy];
    assert_eq!(rt; step(rt.alloc(), &mut agents, &[wide], 60), outside(1, 12));
    let mut agents = [WALKER, WALKER];
    assert_eq!(rt;
        step(rt.alloc(), &mut agents, &[below, wide], 0),
        refused(ArrayFault::SegmentOutOfRange {
            segment: 1,
            field: 2
        })
    );
    assert_eq!(rt;
        step(rt.alloc(), &mut agents, &[WALL, below], 0),
        refused(ArrayFault::AgentOnSegment {
            agent: 0,
            segment: 1
        })
    );
    assert_eq!(rt; agents, [WALKER, WALKER]);
    Ok(())
}

#[test]
fn parts_are_as_the_whole(rt: HostRuntime) -> Result<(), Fail> {
    let other = CrowdAgent {
        x: 3_000,
        pref_x: -300,
        weight: 3,
        ..WALKER
    };
    let mut agents = [WALKER, other];
    let mut low = [WALKER];
    let mut high = [WALKER];
    one_step(&agents, &[], 0);
    parts_make_a_step(&agents, &[], 0);
    assert_eq!(rt; step_part(rt.alloc(), &agents, &[], 0, 0, &mut low), Ok(()));
    assert_eq!(rt;
        step_part(rt.alloc(), &agents, &[], 0, 1, &mut high),
        Ok(())
    );
    assert_eq!(rt; step(rt.alloc(), &mut agents, &[], 0), Ok(()));
    assert_eq!(rt; agents, [low[0], high[0]]);
    Ok(())
}
