//! A commit from its first event to its last: an actor makes a vertex, queues its record, and leads it.

ghost use Rattle.std.specs.Prelude.{◌≡◌};
ghost use Rattle.turn_board.specs.Boards.{IsOf};
ghost use Rattle.turn_board.specs.Board.{known, turns, Ready, SameSeat};
ghost use Rattle.leader_trial.specs.Idle.{IsIdle};

use crate::events::{Append, Led};
use crate::leader::lead;
use crate::opening::{board_of, new_actor};
use crate::parts::{Board, Holder};
use crate::work::{make_first, on_clock};
use core_states::{Act, Actor};
use graph_model::{NoMemory, Payload};
use std::alloc::{AllocError, Global};
use std::sync::Wait;

/// The number of the actor.
const ME: u32 = 0;

// The actor opens a row, begins, draws a number, makes the vertex of this number, and queues its record.
fn queue_one<R: Wait>(
    rt: &R,
    alloc: Global,
    board: &Board,
    pass: &mut Holder,
    p: Payload,
    actor: &mut Actor,
)
    requires own { IsOf board.now pass.old × (turns pass.old ≡ 3) }
    requires ready { Ready pass.old }
    requires idle { IsIdle 0 actor.old (known pass.old) }
    ensures ready { Ready pass.new }
    ensures idle { IsIdle 0 actor.new (known pass.new) }
    ensures keeps { SameSeat pass.old pass.new }
{
    on_clock(rt, alloc, board, pass, ME, Act::Open, actor);
    on_clock(rt, alloc, board, pass, ME, Act::Begin, actor);
    on_clock(rt, alloc, board, pass, ME, Act::Draw, actor);
    make_first(rt, alloc, board, pass, ME, p, actor);
    on_clock(rt, alloc, board, pass, ME, Act::Enqueue, actor);
}

/// What a leader of one record answers, as the disk answers the append. The board is made for it, and closed then.
///
/// Nothing here says that the waits end. Time: one step for each byte of the record.
pub fn lead_one<R: Wait>(rt: &R, alloc: Global, append: Append) -> Result<Led, AllocError> {
    let p = match Payload::from_slice(alloc, b"first") {
        Ok(p) => p,
        Err(NoMemory) => return Err(AllocError),
    };
    let (board, mut pass) = board_of(alloc)?;
    let mut actor = new_actor(alloc);
    queue_one(rt, alloc, &board, &mut pass, p, &mut actor);
    let led = lead(rt, alloc, &board, &mut pass, ME, append, &mut actor);
    drop(board.close(pass));
    Ok(led)
}
