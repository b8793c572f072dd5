//! One worker of a storm.

ghost use Rattle.std.specs.Prelude.{◌≡◌, ◌<◌, ◌^◌, IsTrue, None, true};
ghost use Rattle.store_sessions.specs.Changing.{IsAtWork};
ghost use Rattle.store_storms.specs.Putters.{IsAtStorm, number_of};

use disk_model::Disk;
use graph_model::Payload;
use graph_store::StorePass;
use shard_state::Placed;
use std::alloc::Global;
use std::sync::Wait;
use std::thread::yield_now;
use store_board::StoreBoard;
use store_commits::{CommitEnd, commit};
use store_log::LogHome;
use store_rows::ShardHome;
use store_sessions::{Refusal, begin, close_session, open_session, put_edge};
use store_turns::Session;

/// The label of all edges.
pub const LABEL: u16 = 5;

/// A number above the destinations of all edges.
const DESTINATIONS: u64 = 1 << 62;

/// How often a putter begins again for one edge before it gives the storm up.
const TRIES: u32 = 1_000_000_000;

/// A worker of a storm: its pass, its session, and how many of its edges it has committed.
// The type of the pass is a parameter, so that it is seen to go to another thread wherever the pass may.
pub struct Putter<P> {
    pub pass: P,
    pub session: Session,
    pub committed: u64,
}

/// The edges that a putter is to put: where they begin, how many, and to which destinations.
#[derive(Clone, Copy)]
pub struct Edges {
    pub vertex: u64,
    /// The first destination.
    pub first: u32,
    /// How far the next destination lies behind each.
    pub step: u32,
    pub count: u32,
}

/// What came of a try to put an edge.
#[derive(Drop)]
enum Tried {
    Committed,
    /// Another transaction held the vertex, or has changed it; this one has ended.
    Again,
    Failed,
}

// Whether the session's row is open, and no transaction runs.
fn is_idle(session: &Session) -> bool
    ensures { IsTrue result → (session.now.is_open ≡ true) × (session.now.work ≡ None) }
{
    session.is_open && session.work.is_none()
}

// Whether a transaction of the session works.
fn is_at_work(session: &Session) -> bool
    ensures { IsTrue result → IsAtWork session.now }
{
    match session.working() {
        Some(_) => true,
        None => false,
    }
}

impl<D: Disk> Putter<StorePass<D>> {
    // The session opens its row, where it is not open.
    fn open_row<R: Wait>(&mut self, rt: &R, board: &StoreBoard<ShardHome, LogHome<D>>)
        requires at { IsAtStorm board.now.turns board.now.shards self.old }
        ensures at { IsAtStorm board.now.turns board.now.shards self.new }
        ensures same { number_of self.new ≡ number_of self.old }
    {
        if !self.session.is_open {
            open_session(rt, board, &mut self.pass, &mut self.session);
        }
    }

    // The session closes its row, where it is open and no transaction runs.
    fn close_row<R: Wait>(&mut self, rt: &R, board: &StoreBoard<ShardHome, LogHome<D>>)
        requires at { IsAtStorm board.now.turns board.now.shards self.old }
        ensures at { IsAtStorm board.now.turns board.now.shards self.new }
        ensures same { number_of self.new ≡ number_of self.old }
    {
        if is_idle(&self.session) {
            close_session(rt, board, &mut self.pass, &mut self.session);
        }
    }

    // A transaction begins. Whether one has begun.
    fn has_begun<R: Wait>(
        &mut self,
        rt: &R,
        alloc: Global,
        board: &StoreBoard<ShardHome, LogHome<D>>,
    ) -> bool
        requires at { IsAtStorm board.now.turns board.now.shards self.old }
        ensures at { IsAtStorm board.now.turns board.now.shards self.new }
        ensures same { number_of self.new ≡ number_of self.old }
    {
        if !is_idle(&self.session) {
            return false;
        }
        begin(rt, board, &mut self.pass, &mut self.session, alloc).is_ok()
    }

    // It puts an edge; None where no transaction works.
    fn put_edge<R: Wait>(
        &mut self,
        rt: &R,
        board: &StoreBoard<ShardHome, LogHome<D>>,
        v: u64,
        d: u64,
        p: &Payload,
    ) -> Option<Result<Placed, Refusal>>
        requires at { IsAtStorm board.now.turns board.now.shards self.old }
        requires destination { d < 2 ^ 63 }
        ensures at { IsAtStorm board.now.turns board.now.shards self.new }
        ensures same { number_of self.new ≡ number_of self.old }
    {
        if !is_at_work(&self.session) {
            return None;
        }
        Some(put_edge(rt, board, &mut self.pass, &mut self.session, v, LABEL, d, p))
    }

    // It commits; None where no transaction works. Nothing here says that the waits end.
    fn commit<R: Wait>(
        &mut self,
        rt: &R,
        alloc: Global,
        board: &StoreBoard<ShardHome, LogHome<D>>,
    ) -> Option<Result<CommitEnd, Refusal>>
        requires at { IsAtStorm board.now.turns board.now.shards self.old }
        ensures at { IsAtStorm board.now.turns board.now.shards self.new }
        ensures same { number_of self.new ≡ number_of self.old }
    {
        if !is_at_work(&self.session) {
            return None;
        }
        Some(commit(rt, alloc, board, &mut self.pass, &mut self.session))
    }

    // A transaction puts an edge, and commits.
    fn try_edge<R: Wait>(
        &mut self,
        rt: &R,
        alloc: Global,
        board: &StoreBoard<ShardHome, LogHome<D>>,
        v: u64,
        d: u64,
        p: &Payload,
    ) -> Tried
        requires at { IsAtStorm board.now.turns board.now.shards self.old }
        requires destination { d < 2 ^ 63 }
        ensures at { IsAtStorm board.now.turns board.now.shards self.new }
        ensures same { number_of self.new ≡ number_of self.old }
    {
        let _ = self.has_begun(rt, alloc, board);
        match self.put_edge(rt, board, v, d, p) {
            Some(Ok(_)) => {}
            Some(Err(Refusal::Held { .. })) => return Tried::Again,
            Some(Err(Refusal::Conflict { .. })) => return Tried::Again,
            _ => return Tried::Failed,
        }
        match self.commit(rt, alloc, board) {
            Some(Ok(CommitEnd::Committed { .. })) => Tried::Committed,
            _ => Tried::Failed,
        }
    }

    // Transactions begin until one has put the edge and committed. Whether one has: another refusal ends the tries. Other
    // threads run between two of them.
    fn has_put<R: Wait>(
        &mut self,
        rt: &R,
        alloc: Global,
        board: &StoreBoard<ShardHome, LogHome<D>>,
        v: u64,
        d: u64,
        p: &Payload,
    ) -> bool
        requires at { IsAtStorm board.now.turns board.now.shards self.old }
        requires destination { d < 2 ^ 63 }
        ensures at { IsAtStorm board.now.turns board.now.shards self.new }
        ensures same { number_of self.new ≡ number_of self.old }
    {
        for _ in 0..TRIES {
            match self.try_edge(rt, alloc, board, v, d, p) {
                Tried::Committed => return true,
                Tried::Again => yield_now(),
                Tried::Failed => return false,
            }
        }
        false
    }

    // Puts the edges one after another, each in a transaction of its own, and counts them.
    fn put_all<R: Wait>(
        &mut self,
        rt: &R,
        alloc: Global,
        board: &StoreBoard<ShardHome, LogHome<D>>,
        edges: Edges,
        p: &Payload,
    )
        requires at { IsAtStorm board.now.turns board.now.shards self.old }
        ensures at { IsAtStorm board.now.turns board.now.shards self.new }
        ensures same { number_of self.new ≡ number_of self.old }
    {
        let mut d = u64::from(edges.first);
        for _ in 0..edges.count {
            if d >= DESTINATIONS || !self.has_put(rt, alloc, board, edges.vertex, d, p) {
                return;
            }
            self.committed = self.committed.saturating_add(1);
            d += u64::from(edges.step);
        }
    }

    /// The session opens its row, puts the edges one after another, each in a transaction of its own that begins until it
    /// has committed, and closes its row. It stops where an edge is refused otherwise than by another transaction.
    /// Nothing here says that the waits end.
    pub fn run<R: Wait>(
        &mut self,
        rt: &R,
        alloc: Global,
        board: &StoreBoard<ShardHome, LogHome<D>>,
        edges: Edges,
    )
        requires at { IsAtStorm board.now.turns board.now.shards self.old }
        ensures at { IsAtStorm board.now.turns board.now.shards self.new }
        ensures same { number_of self.new ≡ number_of self.old }
    {
        let Ok(p) = Payload::from_slice(alloc, &[7]) else {
            return;
        };
        self.open_row(rt, board);
        self.put_all(rt, alloc, board, edges, &p);
        self.close_row(rt, board);
    }
}
