//! The trials, run.

use board_trials::{beside_the_log, both_open_a_row, busy_then_free, counted, two_passes};
use std::test::Fail;

#[test]
fn the_values_come_back(rt: HostRuntime) -> Result<(), Fail> {
    let values = two_passes(&rt, rt.alloc())?;
    assert!(rt; values.shards.len() == 2);
    Ok(())
}

#[test]
fn a_taken_turn_is_busy_until_it_is_given(rt: HostRuntime) -> Result<(), Fail> {
    let (busy, free) = busy_then_free(&rt, rt.alloc())?;
    assert!(rt; busy && free);
    Ok(())
}

#[test]
fn two_threads_do_an_event_each(rt: HostRuntime) -> Result<(), Fail> {
    let values = both_open_a_row(&rt, rt.alloc())?;
    assert!(rt; values.shards.len() == 2);
    Ok(())
}

#[test]
fn the_clocks_turn_is_taken_beside_the_logs(rt: HostRuntime) -> Result<(), Fail> {
    let values = beside_the_log(&rt, rt.alloc())?;
    assert!(rt; values.shards.len() == 2);
    Ok(())
}

#[test]
fn two_threads_hand_one_turn_back_and_forth(rt: HostRuntime) -> Result<(), Fail> {
    let sum = counted(&rt, rt.alloc(), 1, 1, 1, 100_000)?;
    assert!(rt; sum == 200_000);
    Ok(())
}

#[test]
fn no_raise_of_eight_threads_on_four_turns_is_lost(rt: HostRuntime) -> Result<(), Fail> {
    let sum = counted(&rt, rt.alloc(), 3, 4, 1, 5_000)?;
    assert!(rt; sum == 40_000);
    Ok(())
}
