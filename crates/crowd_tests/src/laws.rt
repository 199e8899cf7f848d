// Each law is called once.
use crowd_data::{FIRST_VERSION, PLAIN_RING, Scenario};
use fixed_vec::List;
use run_law::{every_run_is_safe, every_step_is_safe, next_exists, one_advice, one_next, one_run};
use std::test::Fail;

#[test]
fn laws_hold_of_a_scenario(rt: HostRuntime) -> Result<(), Fail> {
    let scenario = Scenario::of(
        FIRST_VERSION,
        PLAIN_RING,
        40,
        List::with_room(rt.alloc(), 0)?,
        List::with_room(rt.alloc(), 0)?,
        List::with_room(rt.alloc(), 0)?,
        List::with_room(rt.alloc(), 0)?,
    );
    every_step_is_safe(&scenario);
    every_run_is_safe(&scenario);
    next_exists(&scenario);
    one_advice(&scenario);
    one_next(&scenario);
    one_run(&scenario);
    assert_eq!(rt; scenario.steps(), 40);
    Ok(())
}
