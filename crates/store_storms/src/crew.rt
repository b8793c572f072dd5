//! All workers of a storm, side by side.

ghost use Rattle.std.specs.Prelude.{◌≡◌, ◌≤◌, ◌<◌, ◌^◌, [], All, length, vec_capacity};
ghost use Rattle.store_storms.specs.Putters.{IsAtStorm, IsFirst, HasRun, EachRan, numbers_of};

use crate::putter::{Edges, Putter};
use disk_model::Disk;
use graph_store::{Store, StorePass};
use std::alloc::Global;
use std::sync::Wait;
use std::thread::{self, Threads};
use store_board::StoreBoard;
use store_log::LogHome;
use store_rows::ShardHome;
use store_turns::Session;

/// Runs the workers, each in a thread of its own where one can be made: each puts so many edges on the vertex. No two edges
/// have the same destination.
pub(crate) fn run_all<D: Disk + Send + Sync, R: Threads + Wait + Sync>(
    rt: &R,
    alloc: Global,
    board: &StoreBoard<ShardHome, LogHome<D>>,
    vertex: u64,
    each: u32,
    workers: &mut [Putter<StorePass<D>>],
)
    requires at { All (IsAtStorm board.now.turns board.now.shards) workers.old }
    requires few { length workers.old < 2 ^ 32 }
    ensures len { length workers.new ≡ length workers.old }
    ensures ran { EachRan board.now.turns board.now.shards workers.old workers.new }
{
    if workers.is_empty() {
        return;
    }
    let threads = workers.len();
    let run = |number: usize, worker: &mut Putter<StorePass<D>>|
        requires { (number < 2 ^ 32) × (threads < 2 ^ 32) × IsAtStorm board.now.turns board.now.shards worker.now }
        ensures { HasRun board.entry.now.turns board.entry.now.shards worker.entry.now worker.exit.now }
    {
        let edges = Edges {
            vertex,
            first: number as u32,
            step: threads as u32,
            count: each,
        };
        worker.run(rt, alloc, board, edges)
    };
    thread::for_each_mut(rt, workers, threads, &run);
}

/// So many workers, each with a pass that is split off this one, and a session that has done nothing. There is room for them.
pub(crate) fn split_all<D: Disk>(
    store: &Store<D>,
    pass: &mut StorePass<D>,
    workers: &mut Vec<Putter<StorePass<D>>>,
    count: usize,
)
    requires none { workers.old.items ≡ [] }
    requires room { count ≤ vec_capacity workers.old }
    requires out { IsFirst store.now.board.turns store.now.board.shards [] pass.old }
    ensures out { IsFirst store.now.board.turns store.now.board.shards (numbers_of workers.new.items) pass.new }
    ensures at { All (IsAtStorm store.now.board.turns store.now.board.shards) workers.new.items }
    ensures len { length workers.new.items ≡ count }
{
    for number in 0..count {
        let second = store.split_seat(pass);
        workers.push_reserved(Putter {
            pass: second,
            session: Session::new(number as u64),
            committed: 0,
        });
    }
}

/// The passes of the workers come back. How many edges they have committed.
pub(crate) fn join_all<D: Disk>(
    store: &Store<D>,
    pass: &mut StorePass<D>,
    workers: Vec<Putter<StorePass<D>>>,
) -> u64
    requires out { IsFirst store.now.board.turns store.now.board.shards (numbers_of workers.items) pass.old }
    requires at { All (IsAtStorm store.now.board.turns store.now.board.shards) workers.items }
    ensures back { IsFirst store.now.board.turns store.now.board.shards [] pass.new }
{
    let mut workers = workers;
    let mut committed = 0_u64;
    while let Some(worker) = workers.pop() {
        let Putter {
            pass: second,
            session,
            committed: own,
        } = worker;
        drop(session);
        store.join_seats(pass, second);
        committed = committed.saturating_add(own);
    }
    workers.destroy_empty();
    committed
}
