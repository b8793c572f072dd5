//! The run of a script by workers.

ghost use Rattle.std.specs.Prelude.{◌≡◌, ◌<◌, List, [], ◌∷◌, ◌++◌, length};
ghost use Rattle.request_text.specs.Limits.{AreWithinLimits};
ghost use Rattle.request_text.specs.declared.reply.Reply.{Reply};
ghost use Rattle.graph_legal.specs.Lines.{Phase};
ghost use Rattle.store_log.specs.LogChanges.{IsBaseOf};
ghost use Rattle.store_workers.specs.Phases.{HasRunPhases};
ghost use Rattle.store_workers.specs.Rooms.{IsRoomFor};
ghost use Rattle.turn_board.specs.Board.{known};
ghost use Rattle.turn_board.specs.Views.{start_of};
ghost use Rattle.store_board.specs.Standing.{IsAtBoard};

use crate::crew::{begin_phase, join_all, run_all, split_all};
use crate::orders::in_order;
use crate::room::ScriptRoom;
use disk_model::Disk;
use graph_store::{Store, StorePass};
use io_edges::Gate;
use request_text::Replies;
use script_parts::ScriptParts;
use std::alloc::Global;
use std::snapshot::Snapshot;
use std::sync::Wait;
use std::thread::Threads;

/// Runs the lines of a script by so many workers side by side, each in a thread of its own where one can be made: the
/// lines of session s on worker s modulo their number, in their order, each behind the gate. The replies come in the
/// order of the lines. What is open at the end is given up. The room is one for this script and so many workers. It
/// cannot fail.
///
/// Ends: the script, whose memory is given back: where there is one worker that of each part once its lines have run, else
/// all of it once the workers are done.
///
/// Scripts can be run one after another, each as a phase: the pass, which is the only one of the store, has then noted what
/// the law on replies asks for of all phases so far (`HasRunPhases`), and may be closed.
///
/// Time: that of the lines and their gates; and for each worker one step for each line, and for each session up to the
/// greatest. Nothing here says that the waits end.
pub fn run_script<D: Disk + Send + Sync, G: Gate + Sync, R: Threads + Wait + Sync>(
    rt: &R,
    alloc: Global,
    store: &Store<D>,
    pass: &mut StorePass<D>,
    script: ScriptParts,
    count: u32,
    room: ScriptRoom<StorePass<D>>,
    gate: &G,
) -> Replies
    requires stands { IsAtBoard store.now.board.turns store.now.board.shards pass.old }
    requires found { IsBaseOf (known pass.old).base (known pass.old).found.records }
    requires within { AreWithinLimits script }
    requires some { 0 < count }
    requires room { IsRoomFor count script room }
    ensures stands { IsAtBoard store.now.board.turns store.now.board.shards pass.new }
    ensures len { length result ≡ length script }
    ensures phase { (phases : List Phase) (replies : List Reply) → HasRunPhases phases replies (known pass.old) →
        HasRunPhases (phases ++ record { script = script; workers = count } ∷ []) (replies ++ result) (known pass.new) }
    ensures start { start_of (known pass.new) ≡ start_of (known pass.old) }
{
    let ScriptRoom {
        crews,
        owners,
        mut workers,
        mut own,
        replies,
    } = room;
    let lines = script.len();
    let whole = Snapshot::of(&script);
    begin_phase(store, pass);
    split_all(store, pass, &mut workers, &script, count, crews);
    run_all(
        rt,
        alloc,
        &store.board,
        script,
        owners.as_slice(),
        count,
        gate,
        workers.as_mut_slice(),
    );
    join_all(store, pass, workers, &mut own);
    own.reverse();
    Replies::from_vec(in_order(whole, lines, owners.as_slice(), count, own, replies))
}
