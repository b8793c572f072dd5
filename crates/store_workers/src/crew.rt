//! All workers, side by side.

ghost use Rattle.std.specs.Prelude.{◌≡◌, ℕ, ◌≤◌, ◌<◌, ◌^◌, [], List, length, map, reverse, vec_capacity};
ghost use Rattle.request_text.specs.Limits.{AreWithinLimits};
ghost use Rattle.graph_legal.specs.Lines.{Replied};
ghost use Rattle.turn_board.specs.Board.{known};
ghost use Rattle.turn_board.specs.Views.{View, start_of};
ghost use Rattle.store_board.specs.Standing.{IsAtBoard};
ghost use Rattle.worker_lines.specs.Lines.{AreOwners};
ghost use Rattle.store_workers.specs.Phases.{next_parent};
ghost use Rattle.store_workers.specs.Crews.{IsCrew, MayStart, HasRun, EachRan, At, HasParted, HasOut, AreNumbered, Waits, Ran};

use crate::worker::{Crew, Worker};
use disk_model::Disk;
use graph_store::{Store, StorePass};
use io_edges::Gate;
use request_text::Reply;
use script_parts::ScriptParts;
use std::alloc::Global;
use std::mem;
use std::sync::Wait;
use std::thread::{self, Threads};
use store_board::StoreBoard;
use store_log::LogHome;
use store_rows::ShardHome;
use worker_lines::{SharedRun, Whole};

/// Runs the workers, each in a thread of its own where one can be made. There are as many as are said to share the script.
/// It cannot fail: where no thread can be made they run one after another.
fn run_side_by_side<D: Disk + Send + Sync, G: Gate + Sync, R: Threads + Wait + Sync>(
    rt: &R,
    alloc: Global,
    board: &StoreBoard<ShardHome, LogHome<D>>,
    script: &ScriptParts,
    owners: &[u32],
    count: u32,
    gate: &G,
    workers: &mut [Worker<StorePass<D>>],
)
    requires may { AreNumbered (MayStart board.now.turns board.now.shards count script.now) 0 workers.old }
    requires within { AreWithinLimits script.now }
    requires owned { AreOwners count owners.now 0 script.now }
    requires some { 0 < count }
    requires count { length workers.old ≡ count }
    ensures len { length workers.new ≡ length workers.old }
    ensures ran { EachRan board.now.turns board.now.shards count script.now workers.old workers.new }
{
    let threads = workers.len();
    let run = |number: usize, worker: &mut Worker<StorePass<D>>|
        requires { (number < 2 ^ 32) × MayStart board.now.turns board.now.shards count script.now number worker.now
            × AreWithinLimits script.now × AreOwners count owners.now 0 script.now }
        ensures { HasRun board.entry.now.turns board.entry.now.shards count script.entry.now number
            worker.entry.now worker.exit.now }
    {
        let shared = SharedRun {
            alloc,
            board,
            owners,
            workers: count,
            gate,
        };
        worker.run(rt, &shared, Whole::Shared(script), number as u32)
    };
    thread::for_each_mut(rt, workers, threads, &run);
}

/// Runs the workers, side by side where there are several, and gives the script back: where there is one worker each part
/// once its lines have run, else the whole once all have.
pub(crate) fn run_all<D: Disk + Send + Sync, G: Gate + Sync, R: Threads + Wait + Sync>(
    rt: &R,
    alloc: Global,
    board: &StoreBoard<ShardHome, LogHome<D>>,
    script: ScriptParts,
    owners: &[u32],
    count: u32,
    gate: &G,
    workers: &mut [Worker<StorePass<D>>],
)
    requires may { AreNumbered (MayStart board.now.turns board.now.shards count script) 0 workers.old }
    requires within { AreWithinLimits script }
    requires owned { AreOwners count owners.now 0 script }
    requires some { 0 < count }
    requires count { length workers.old ≡ count }
    ensures len { length workers.new ≡ length workers.old }
    ensures ran { EachRan board.now.turns board.now.shards count script workers.old workers.new }
{
    if count == 1 {
        let shared = SharedRun {
            alloc,
            board,
            owners,
            workers: count,
            gate,
        };
        workers[0].run(rt, &shared, Whole::Own(script), 0);
        return;
    }
    run_side_by_side(rt, alloc, board, &script, owners, count, gate, workers);
    script.give_back(rt, alloc);
}

/// Begins a phase: in place of the one pass that there is comes the parent of the passes of the phase's workers. It is split
/// off that one, which is joined into it. So the length of a pass's number tells the phase of its worker, and no two
/// workers have one pass, however many workers a phase has.
pub(crate) fn begin_phase<D: Disk>(store: &Store<D>, pass: &mut StorePass<D>)
    requires stands { IsAtBoard store.now.board.turns store.now.board.shards pass.old }
    ensures stands { IsAtBoard store.now.board.turns store.now.board.shards pass.new }
    ensures parent { known pass.new ≡ next_parent (known pass.old) }
{
    let parent = store.split_seat(pass);
    let before = mem::replace(pass, parent);
    store.join_seats(pass, before);
}

/// A worker for each of these crews, the last one first, with a pass that is split off the phase's parent. There is room
/// for them.
pub(crate) fn split_all<D: Disk>(
    store: &Store<D>,
    pass: &mut StorePass<D>,
    workers: &mut Vec<Worker<StorePass<D>>>,
    script: &ScriptParts,
    count: u32,
    crews: Vec<Crew>,
)
    requires stands { IsAtBoard store.now.board.turns store.now.board.shards pass.old }
    requires none { (known pass.old).splits ≡ 0 }
    requires empty { workers.old.items ≡ [] }
    requires crews { AreNumbered (IsCrew count script.now) 0 (reverse crews.items) }
    requires room { length crews.items ≤ vec_capacity workers.old }
    ensures parted { At store.now.board.turns store.now.board.shards
        (HasParted (known pass.old) (length workers.new.items)) pass.new }
    ensures wait { AreNumbered (Waits store.now.board.turns store.now.board.shards count script.now
        (start_of (known pass.old)) (known pass.old).number) 0 workers.new.items }
    ensures len { length workers.new.items ≡ length crews.items }
{
    let mut crews = crews;
    while let Some(crew) = crews.pop() {
        let second = store.split_seat(pass);
        workers.push_reserved(Worker { pass: second, crew });
    }
    crews.destroy_empty();
}

/// The passes of the workers come back, and their replies, those of the last worker first. There is room for them.
pub(crate) fn join_all<D: Disk>(
    store: &Store<D>,
    pass: &mut StorePass<D>,
    workers: Vec<Worker<StorePass<D>>>,
    replies: &mut Vec<Vec<Reply>>,
)
    requires stands { IsAtBoard store.now.board.turns store.now.board.shards pass.old }
    requires stand { AreNumbered (λ _ w. IsAtBoard store.now.board.turns store.now.board.shards w.pass) 0 workers.items }
    requires none { replies.old.items ≡ [] }
    requires room { length workers.items ≤ vec_capacity replies.old }
    ensures stands { IsAtBoard store.now.board.turns store.now.board.shards pass.new }
    ensures start { start_of (known pass.new) ≡ start_of (known pass.old) }
    ensures back { (u : View) (n : ℕ) (lines : ℕ → List Replied) → HasOut u n lines (length workers.items) (known pass.old) →
        AreNumbered (Ran (start_of u) u.number lines) 0 workers.items → HasOut u n lines 0 (known pass.new) }
    ensures replies { reverse replies.new.items ≡ map (λ w. w.crew.replies) workers.items }
{
    let mut workers = workers;
    while let Some(worker) = workers.pop() {
        let Worker { pass: second, crew } = worker;
        let Crew {
            sessions,
            replies: own,
        } = crew;
        drop(sessions);
        store.join_seats(pass, second);
        replies.push_reserved(own);
    }
    workers.destroy_empty();
}
