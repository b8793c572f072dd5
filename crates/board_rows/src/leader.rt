//! The leader, run.

use core_states::CoreAnswer;
use leader_trial::{Append, lead_one};
use std::test::Fail;

#[test]
fn a_leader_publishes_the_record_that_waits(rt: HostRuntime) -> Result<(), Fail> {
    let led = lead_one(&rt, rt.alloc(), Append::Durable { moment: 7 })?;
    assert!(rt; matches!(&led.collected, Some(CoreAnswer::Collected { members: 1 })));
    assert!(rt; matches!(&led.wrote, Some(CoreAnswer::Done)));
    assert!(rt; matches!(&led.ended, Some(CoreAnswer::Published { epoch: 1 })));
    Ok(())
}

#[test]
fn a_leader_gives_the_record_up_whose_append_met_a_fault(rt: HostRuntime) -> Result<(), Fail> {
    let faulted = Append::Faulted {
        before: 0,
        after: 1,
    };
    let led = lead_one(&rt, rt.alloc(), faulted)?;
    assert!(rt; matches!(&led.collected, Some(CoreAnswer::Collected { members: 1 })));
    assert!(rt; led.wrote.is_none());
    assert!(rt; matches!(&led.ended, Some(CoreAnswer::Done)));
    Ok(())
}
