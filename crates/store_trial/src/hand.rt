//! A session of a store with a pass of its own, and the calls that it makes.

ghost use Rattle.std.specs.Prelude.{◌≡◌, ◌<◌, ◌^◌, IsTrue, None, true};
ghost use Rattle.store_sessions.specs.Changing.{IsAtWork};
ghost use Rattle.store_trial.specs.Hands.{IsReady, GoesOn};

use crate::plan::Edge;
use disk_model::Disk;
use graph_model::{Answer, Payload, Query};
use graph_store::StorePass;
use std::alloc::Global;
use std::sync::Wait;
use store_board::StoreBoard;
use store_commits::commit;
use store_log::LogHome;
use store_rows::ShardHome;
use store_sessions::{begin, close_session, new_vertex, open_session, put_edge, read};
use store_turns::Session;

/// The label of all edges.
pub const LABEL: u16 = 1;

/// A session with the pass that it goes by.
pub struct Hand<D: Disk> {
    pub pass: StorePass<D>,
    pub session: Session,
}

// Whether the session's row is open, and no transaction runs.
fn is_idle(session: &Session) -> bool
    ensures { IsTrue result → (session.now.is_open ≡ true) × (session.now.work ≡ None) }
{
    session.is_open && session.work.is_none()
}

// Whether a transaction of the session works.
fn is_at_work(session: &Session) -> bool
    ensures { IsTrue result → IsAtWork session.now }
{
    match session.working() {
        Some(_) => true,
        None => false,
    }
}

impl<D: Disk> Hand<D> {
    /// The session opens its row, where it is not open.
    pub fn open_row<R: Wait>(&mut self, rt: &R, board: &StoreBoard<ShardHome, LogHome<D>>)
        requires ready { IsReady board.now.turns board.now.shards self.old.pass self.old.session }
        ensures goes_on { GoesOn board.now.turns board.now.shards self.old.pass self.new.pass self.new.session }
    {
        if !self.session.is_open {
            open_session(rt, board, &mut self.pass, &mut self.session);
        }
    }

    /// The session closes its row, where it is open and no transaction runs.
    pub fn close_row<R: Wait>(&mut self, rt: &R, board: &StoreBoard<ShardHome, LogHome<D>>)
        requires ready { IsReady board.now.turns board.now.shards self.old.pass self.old.session }
        ensures goes_on { GoesOn board.now.turns board.now.shards self.old.pass self.new.pass self.new.session }
    {
        if is_idle(&self.session) {
            close_session(rt, board, &mut self.pass, &mut self.session);
        }
    }

    /// A transaction begins; whether it did.
    pub fn begin<R: Wait>(
        &mut self,
        rt: &R,
        board: &StoreBoard<ShardHome, LogHome<D>>,
        alloc: Global,
    ) -> bool
        requires ready { IsReady board.now.turns board.now.shards self.old.pass self.old.session }
        ensures goes_on { GoesOn board.now.turns board.now.shards self.old.pass self.new.pass self.new.session }
    {
        if !is_idle(&self.session) {
            return false;
        }
        begin(rt, board, &mut self.pass, &mut self.session, alloc).is_ok()
    }

    /// It makes a vertex; whether it did.
    pub fn make<R: Wait>(
        &mut self,
        rt: &R,
        board: &StoreBoard<ShardHome, LogHome<D>>,
        p: &Payload,
    ) -> bool
        requires ready { IsReady board.now.turns board.now.shards self.old.pass self.old.session }
        ensures goes_on { GoesOn board.now.turns board.now.shards self.old.pass self.new.pass self.new.session }
    {
        if !is_at_work(&self.session) {
            return false;
        }
        new_vertex(rt, board, &mut self.pass, &mut self.session, p).is_ok()
    }

    /// It puts an edge; whether it did.
    pub fn put<R: Wait>(
        &mut self,
        rt: &R,
        board: &StoreBoard<ShardHome, LogHome<D>>,
        edge: &Edge,
        p: &Payload,
    ) -> bool
        requires ready { IsReady board.now.turns board.now.shards self.old.pass self.old.session }
        requires destination { edge.now.to < 2 ^ 63 }
        ensures goes_on { GoesOn board.now.turns board.now.shards self.old.pass self.new.pass self.new.session }
    {
        if !is_at_work(&self.session) {
            return false;
        }
        put_edge(
            rt,
            board,
            &mut self.pass,
            &mut self.session,
            edge.from,
            LABEL,
            edge.to,
            p,
        )
        .is_ok()
    }

    /// It reads; None where no transaction works, or memory runs out.
    pub fn read<R: Wait>(
        &mut self,
        rt: &R,
        board: &StoreBoard<ShardHome, LogHome<D>>,
        query: &Query,
    ) -> Option<Answer>
        requires ready { IsReady board.now.turns board.now.shards self.old.pass self.old.session }
        ensures goes_on { GoesOn board.now.turns board.now.shards self.old.pass self.new.pass self.new.session }
    {
        if !is_at_work(&self.session) {
            return None;
        }
        read(rt, board, &mut self.pass, &self.session, query).ok()
    }

    /// It commits; whether it did. Nothing here says that the waits end.
    pub fn commit<R: Wait>(
        &mut self,
        rt: &R,
        board: &StoreBoard<ShardHome, LogHome<D>>,
        alloc: Global,
    ) -> bool
        requires ready { IsReady board.now.turns board.now.shards self.old.pass self.old.session }
        ensures goes_on { GoesOn board.now.turns board.now.shards self.old.pass self.new.pass self.new.session }
    {
        if !is_at_work(&self.session) {
            return false;
        }
        commit(rt, alloc, board, &mut self.pass, &mut self.session).is_ok()
    }
}
