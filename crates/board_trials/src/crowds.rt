//! Many threads that raise counts, each count under its turn.

ghost use Rattle.std.specs.Prelude.{◌≡◌, ◌⊎◌, ◌+◌, ◌≤◌, ◌<◌, ℕ, [], List};
ghost use Rattle.std.specs.Thread.{IsSync};
ghost use Rattle.turn_board.specs.Views.{In, numbers};
ghost use Rattle.turn_board.specs.Boards.{IsOf};
ghost use Rattle.turn_board.specs.Board.{known, turns, Ready, SameSeat};
ghost use Rattle.board_trials.specs.Passes.{StaysAs, CameBack};

use crate::opening::board_of;
use crate::spot::{Board, Holder, Values};
use crate::trials::give_back;
use std::alloc::{AllocError, Global};
use std::sync::Wait;
use std::thread::{self, Threads};
use turn_board::Home;

// Takes a shard's turn, raises its count, and gives it back.
fn raise_once<R: Wait>(rt: &R, board: &Board, pass: &mut Holder, shard: u32)
    requires own { IsOf board.now pass.old × (shard + 2 < turns pass.old) }
    requires ready { Ready pass.old × ((known pass.old).held ≡ []) }
    ensures ready { Ready pass.new × ((known pass.new).held ≡ []) }
    ensures stays { StaysAs (known pass.old) (known pass.new) }
    ensures keeps { SameSeat pass.old pass.new }
{
    let mut rows = board.take_shard(rt, pass, shard);
    rows.count = rows.count.wrapping_add(1);
    give_back(board, pass, shard, Home::Shard(rows))
}

/// Raises the count of a shard so many times, each time under its turn.
pub fn raise<R: Wait>(rt: &R, board: &Board, pass: Holder, shard: u32, times: u64) -> Holder
    requires own { IsOf board.now pass × (shard + 2 < turns pass) }
    requires ready { Ready pass × ((known pass).held ≡ []) }
    ensures own { result.table_id ≡ pass.table_id }
    ensures ready { Ready result × ((known result).held ≡ []) }
    ensures stays { StaysAs (known pass) (known result) }
{
    let mut pass = pass;
    for _ in 0..times {
        raise_once(rt, board, &mut pass, shard);
    }
    pass
}

/// As many threads as 2 to the power of `depth` raise the counts of the first `count` shards, so many times each. The
/// thread of number `place` takes the turn of the shard `place` times `stride`, modulo `count`.
pub fn crowd<R: Threads + Wait + Sync>(
    rt: &R,
    board: &Board,
    pass: Holder,
    depth: u32,
    place: u32,
    count: u32,
    stride: u32,
    times: u64,
) -> Holder
    requires own { IsOf board.now pass × (0 < count) × (count + 2 ≤ turns pass) }
    requires ready { Ready pass × ((known pass).held ≡ []) }
    ensures own { result.table_id ≡ pass.table_id }
    ensures ready { Ready result × ((known result).held ≡ []) }
    ensures back { CameBack (known pass) (known result) }
{
    if depth == 0 {
        return raise(rt, board, pass, place.wrapping_mul(stride) % count, times);
    }
    let mut first = pass;
    let second = board.split(&mut first);
    let left = place.wrapping_mul(2);
    let right = left.wrapping_add(1);
    let depth = depth - 1;
    let (mut first, second) = thread::join(
        rt,
        move || -> Holder
            requires own { IsOf board.now first × (0 < count) × (count + 2 ≤ turns first) }
            requires ready { Ready first × ((known first).held ≡ []) }
            ensures own { result.table_id ≡ first.table_id }
            ensures ready { Ready result × ((known result).held ≡ []) }
            ensures back { CameBack (known first) (known result) }
        { crowd(rt, board, first, depth, left, count, stride, times) },
        move || -> Holder
            requires own { IsOf board.now second × (0 < count) × (count + 2 ≤ turns second) }
            requires ready { Ready second × ((known second).held ≡ []) }
            ensures own { result.table_id ≡ second.table_id }
            ensures ready { Ready result × ((known result).held ≡ []) }
            ensures back { CameBack (known second) (known result) }
        { crowd(rt, board, second, depth, right, count, stride, times) },
    );
    board.join(&mut first, second);
    first
}

// The counts of all shards, added up.
fn sum_of(values: Values) -> u64 {
    let mut values = values;
    let mut sum: u64 = 0;
    while let Some(value) = values.shards.values.pop() {
        if let Some(Home::Shard(rows)) = value {
            sum = sum.wrapping_add(rows.count);
        }
    }
    sum
}

/// The sum of the counts at close, after a crowd has raised those of a board of so many shards.
pub fn counted<R: Threads + Wait + Sync>(
    rt: &R,
    alloc: Global,
    depth: u32,
    count: u32,
    stride: u32,
    times: u64,
) -> Result<u64, AllocError>
    requires some { 0 < count }
    requires few { count ≤ 64 }
{
    let (board, first) = board_of(alloc, count)?;
    let last = crowd(rt, &board, first, depth, 0, count, stride, times);
    Ok(sum_of(board.close(last)))
}
