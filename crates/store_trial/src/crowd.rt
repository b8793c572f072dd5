//! The threads of a phase, each with a pass and a session of its own.

ghost use Rattle.turn_board.specs.Board.{known, Knowing};
ghost use Rattle.turn_board.specs.Views.{joining, split_off, splitting};
ghost use Rattle.store_board.specs.Standing.{IsAtBoard};
ghost use Rattle.store_trial.specs.Hands.{IsFree, CameBack};

use crate::hand::Hand;
use crate::tally::Tally;
use crate::work::{Task, work};
use disk_model::Disk;
use graph_store::StorePass;
use std::alloc::Global;
use std::sync::Wait;
use std::thread::{self, Threads};
use std::time::Clock;
use store_board::StoreBoard;
use store_log::LogHome;
use store_rows::ShardHome;
use store_turns::Session;

// A pass is split off this one. The board alone goes to another thread, and so it is not the store that is asked.
fn split_pass<D: Disk>(
    board: &StoreBoard<ShardHome, LogHome<D>>,
    pass: &mut StorePass<D>,
) -> StorePass<D>
    requires stands { IsAtBoard board.now.turns board.now.shards pass.old }
    ensures left { Knowing pass.new (splitting (known pass.old)) }
    ensures right { Knowing result (split_off (known pass.old)) }
    ensures stands { IsAtBoard board.now.turns board.now.shards pass.new
        × IsAtBoard board.now.turns board.now.shards result }
{
    board.turns.split(pass)
}

// One pass is made of two.
fn join_pass<D: Disk>(
    board: &StoreBoard<ShardHome, LogHome<D>>,
    into: &mut StorePass<D>,
    from: StorePass<D>,
)
    requires stands { IsAtBoard board.now.turns board.now.shards into.old
        × IsAtBoard board.now.turns board.now.shards from }
    ensures both { Knowing into.new (joining (known into.old) (known from)) }
    ensures stands { IsAtBoard board.now.turns board.now.shards into.new }
{
    board.turns.join(into, from)
}

// The work of one thread, by a pass that is split off this one and joined into it again.
fn one<D: Disk, R: Wait + Clock>(
    rt: &R,
    board: &StoreBoard<ShardHome, LogHome<D>>,
    alloc: Global,
    pass: StorePass<D>,
    task: Task,
) -> (StorePass<D>, Tally)
    requires free { IsFree board.now.turns board.now.shards pass }
    ensures free { IsFree board.now.turns board.now.shards result.0 }
    ensures back { CameBack (known pass) (known result.0) }
{
    let mut first = pass;
    let second = split_pass(board, &mut first);
    let mut hand = Hand {
        pass: second,
        session: Session::new(0),
    };
    let tally = work(rt, board, alloc, &mut hand, &task);
    let Hand {
        pass: second,
        session,
    } = hand;
    drop(session);
    join_pass(board, &mut first, second);
    (first, tally)
}

/// As many threads as 2 to the power of `depth` do a task each. The first one has the place of this task, and the others
/// those behind it.
pub fn crowd<D: Disk + Send + Sync, R: Threads + Wait + Clock + Sync>(
    rt: &R,
    board: &StoreBoard<ShardHome, LogHome<D>>,
    alloc: Global,
    pass: StorePass<D>,
    depth: u32,
    task: Task,
) -> (StorePass<D>, Tally)
    requires free { IsFree board.now.turns board.now.shards pass }
    ensures free { IsFree board.now.turns board.now.shards result.0 }
    ensures back { CameBack (known pass) (known result.0) }
{
    if depth == 0 {
        return one(rt, board, alloc, pass, task.seated());
    }
    let mut first = pass;
    let second = split_pass(board, &mut first);
    let depth = depth - 1;
    let left = task.half(false);
    let right = task.half(true);
    let ((mut first, done), (second, also)) = thread::join(
        rt,
        move || -> (StorePass<D>, Tally)
            requires free { IsFree board.now.turns board.now.shards first }
            ensures free { IsFree board.entry.now.turns board.entry.now.shards result.0 }
            ensures back { CameBack (known first) (known result.0) }
        { crowd(rt, board, alloc, first, depth, left) },
        move || -> (StorePass<D>, Tally)
            requires free { IsFree board.now.turns board.now.shards second }
            ensures free { IsFree board.entry.now.turns board.entry.now.shards result.0 }
            ensures back { CameBack (known second) (known result.0) }
        { crowd(rt, board, alloc, second, depth, right) },
    );
    join_pass(board, &mut first, second);
    (first, done.with(&also))
}
