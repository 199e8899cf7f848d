// Rounds of three pieces, and of many drawn by threads.
use std::test::Fail;
use work_claim::Claims;

#[test]
fn numbers_are_drawn_in_turn(rt: HostRuntime) -> Result<(), Fail> {
    let (claims, mut root) = Claims::open(rt.alloc(), 3)?;
    root.begin(&claims);
    let mut claimer = root.lend(&claims);
    assert_eq!(rt; root.next(&claims), Some(0));
    assert_eq!(rt; claimer.next(&claims), Some(1));
    assert_eq!(rt; claimer.next(&claims), Some(2));
    assert_eq!(rt; claimer.next(&claims), None);
    root.take_back(&claims, claimer);
    assert_eq!(rt; root.next(&claims), None);
    root.begin(&claims);
    assert_eq!(rt; root.next(&claims), Some(0));
    Ok(())
}
