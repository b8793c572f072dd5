//! How the visible epoch rises.

ghost use Rattle.std.specs.Prelude.{◌≡◌, ◌+◌, ◌^◌, ◌<◌, length};
ghost use Rattle.std.specs.VecDeque.{deque_capacity};
ghost use Rattle.epoch_clock.specs.Decided.{risen};

use std::collections::VecDeque;

/// The visible epoch, once it has risen past the epochs in which all is done. Of each epoch above it the list tells
/// how many records are not done, and then only of those above the new one. Time: one step for each epoch that it
/// rises.
pub fn rise(visible: u64, undone: &mut VecDeque<usize>) -> u64
    requires { visible + length undone.old.items < 2 ^ 64 }
    ensures visible { result + length undone.new.items ≡ visible + length undone.old.items }
    ensures undone { undone.new.items ≡ risen undone.old.items }
    ensures keeps { deque_capacity undone.new ≡ deque_capacity undone.old }
{
    let mut visible = visible;
    while !undone.is_empty() && undone[0] == 0 {
        let _all_done = undone.pop_front();
        visible += 1;
    }
    visible
}
