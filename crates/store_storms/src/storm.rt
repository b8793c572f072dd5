//! A storm over a new log.

ghost use Rattle.std.specs.Prelude.{◌≡◌, ◌<◌, ◌≤◌, ◌^◌, IfSome, [], vec_capacity};
ghost use Rattle.graph_model.specs.Records.{list_most};
ghost use Rattle.store_stories.specs.AtDesk.{AreAtDesk};
ghost use Rattle.store_storms.specs.Putters.{IsFirst};

use crate::crew::{join_all, run_all, split_all};
use crate::putter::Putter;
use disk_model::Disk;
use graph_model::Payload;
use graph_store::{Closed, Settings, Store, StorePass};
use std::alloc::Global;
use std::sync::Wait;
use std::thread::Threads;
use store_commits::CommitEnd;
use store_stories::{Desk, desk_over};

/// What a storm leaves.
#[derive(Drop)]
pub struct Stormed<D: Disk> {
    /// The vertex on which the edges were put; None where it was not made.
    pub vertex: Option<u64>,
    /// How many edges were put by transactions that were answered as committed.
    pub committed: u64,
    pub closed: Closed<D>,
}

// A transaction of the desk's session makes a vertex with this payload, and commits; with its number, or None where one of
// these failed.
fn made<D: Disk, R: Wait>(rt: &R, alloc: Global, desk: &mut Desk<D>, p: &Payload) -> Option<u64>
    requires at_desk { AreAtDesk desk.old.store.board.turns desk.old.store.board.shards desk.old.pass desk.old.session desk.old.other }
    ensures at_desk { AreAtDesk desk.new.store.board.turns desk.new.store.board.shards desk.new.pass desk.new.session desk.new.other }
{
    desk.open_row(rt);
    let _ = desk.begin(rt, alloc);
    let made = desk.new_vertex(rt, p);
    let ended = desk.commit(rt, alloc);
    desk.close_row(rt);
    match (made, ended) {
        (Some(Ok(v)), Some(Ok(CommitEnd::Committed { .. }))) => Some(v),
        _ => None,
    }
}

// So many threads put so many edges each on a vertex. How many were committed. There is room for their workers.
fn put_by_all<D: Disk + Send + Sync, R: Threads + Wait + Sync>(
    rt: &R,
    alloc: Global,
    store: &Store<D>,
    pass: &mut StorePass<D>,
    workers: Vec<Putter<StorePass<D>>>,
    threads: u32,
    vertex: u64,
    each: u32,
) -> u64
    requires first { IsFirst store.now.board.turns store.now.board.shards [] pass.old }
    requires none { workers.items ≡ [] }
    requires room { threads ≤ vec_capacity workers }
    ensures first { IsFirst store.now.board.turns store.now.board.shards [] pass.new }
{
    let mut workers = workers;
    split_all(store, pass, &mut workers, threads as usize);
    run_all(
        rt,
        alloc,
        &store.board,
        vertex,
        each,
        workers.as_mut_slice(),
    );
    join_all(store, pass, workers)
}

/// Makes a vertex in a store over a new log on an empty disk, and lets so many threads put so many edges each on it, each
/// in a transaction of its own. None where the disk failed or memory ran out before the store was opened. Nothing here says
/// that the waits end.
pub fn storm_over<D: Disk + Send + Sync + Drop, R: Threads + Wait + Sync>(
    rt: &R,
    alloc: Global,
    disk: D,
    settings: Settings,
    threads: u32,
    each: u32,
) -> Option<Stormed<D>>
    requires empty { IfSome (D.told disk) (λ b. b ≡ []) }
    requires some { (0 < settings.shards) × (settings.shards ≤ 64) }
    requires most { settings.log_most ≤ list_most }
{
    let Ok(p) = Payload::from_slice(alloc, &[7]) else {
        return None;
    };
    let Ok(workers) = Vec::with_capacity(alloc, threads as usize) else {
        return None;
    };
    let Some(desk) = desk_over(alloc, disk, settings) else {
        workers.destroy_empty();
        return None;
    };
    let mut desk = desk;
    let vertex = made(rt, alloc, &mut desk, &p);
    let Desk {
        store,
        pass,
        session,
        other,
    } = desk;
    drop(session);
    drop(other);
    let hot = vertex.unwrap_or(0);
    let mut pass = pass.into_seat();
    let committed = put_by_all(rt, alloc, &store, &mut pass, workers, threads, hot, each);
    Some(Stormed {
        vertex,
        committed,
        closed: store.close_seat(pass),
    })
}
