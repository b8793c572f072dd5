//! Two passes of one store, in one thread: the first holds a turn, and a session of the second works.

ghost use Rattle.std.specs.Prelude.{IsTrue};
ghost use Rattle.store_stories.specs.AtDesk.{AreAtDesk};
ghost use Rattle.store_stories.specs.Apart.{AreApart};

use crate::desk::{Desk, is_at_work, is_idle, is_new};
use disk_model::Disk;
use graph_model::Payload;
use graph_store::{Begun, Closed, CommitEnd, Pass, Refusal, Session, Store};
use std::alloc::Global;
use std::sync::Wait;

/// A store, a pass that does nothing but hold a turn, and a pass with a session.
pub struct Pair<D: Disk> {
    pub store: Store<D>,
    pub first: Pass<D>,
    pub second: Pass<D>,
    pub session: Session,
}

/// What a session is answered that wants to begin while the first pass holds a turn; and whether that pass held one before,
/// then and behind.
#[derive(Clone, Copy, Debug, PartialEq, Eq)]
pub struct Beside {
    pub before: bool,
    pub then: bool,
    pub behind: bool,
    pub answer: Result<Begun, Refusal>,
}

/// A second pass is split off that of the desk, with a session that has done nothing.
pub fn pair_of<D: Disk>(desk: Desk<D>) -> Pair<D>
    requires at_desk { AreAtDesk desk.store.board.turns desk.store.board.shards desk.pass desk.session desk.other }
    ensures apart { AreApart result.store.board.turns result.store.board.shards result.first result.second result.session }
{
    let Desk {
        store,
        mut pass,
        session,
        other,
    } = desk;
    drop(session);
    drop(other);
    let second = store.split_pass(&mut pass);
    Pair {
        store,
        first: pass,
        second,
        session: Session::new(0),
    }
}

impl<D: Disk> Pair<D> {
    /// The session opens its row, where it has done nothing.
    pub fn open_row<R: Wait>(&mut self, rt: &R)
        requires apart { AreApart self.old.store.board.turns self.old.store.board.shards self.old.first self.old.second self.old.session }
        ensures apart { AreApart self.new.store.board.turns self.new.store.board.shards self.new.first self.new.second self.new.session }
    {
        if is_new(&self.session) {
            let index = self.session.index;
            self.session = self.store.open_session(rt, &mut self.second, index);
        }
    }

    /// A transaction of the session wants to begin, in one try; None where its row is closed, or one runs.
    pub fn try_begin(&mut self, alloc: Global) -> Option<Result<Begun, Refusal>>
        requires apart { AreApart self.old.store.board.turns self.old.store.board.shards self.old.first self.old.second self.old.session }
        ensures apart { AreApart self.new.store.board.turns self.new.store.board.shards self.new.first self.new.second self.new.session }
    {
        if !is_idle(&self.session) {
            return None;
        }
        Some(
            self.store
                .try_begin(&mut self.second, &mut self.session, alloc),
        )
    }

    /// The same while the first pass holds this turn, which it takes before and gives back behind; None also where there is
    /// no such turn.
    pub fn try_begin_beside<R: Wait>(&mut self, rt: &R, alloc: Global, turn: u32) -> Option<Beside>
        requires apart { AreApart self.old.store.board.turns self.old.store.board.shards self.old.first self.old.second self.old.session }
        ensures apart { AreApart self.new.store.board.turns self.new.store.board.shards self.new.first self.new.second self.new.session }
    {
        if !is_idle(&self.session) || turn.saturating_sub(1) > self.store.board.shards {
            return None;
        }
        let before = self.first.holds_turn();
        self.store.hold_turn(rt, &mut self.first, turn);
        let then = self.first.holds_turn();
        let answer = self
            .store
            .try_begin(&mut self.second, &mut self.session, alloc);
        self.store.free_turn(&mut self.first);
        Some(Beside {
            before,
            then,
            behind: self.first.holds_turn(),
            answer,
        })
    }

    /// The session makes a vertex; None where no transaction of it works.
    pub fn new_vertex<R: Wait>(&mut self, rt: &R, p: &Payload) -> Option<Result<u64, Refusal>>
        requires apart { AreApart self.old.store.board.turns self.old.store.board.shards self.old.first self.old.second self.old.session }
        ensures apart { AreApart self.new.store.board.turns self.new.store.board.shards self.new.first self.new.second self.new.session }
    {
        if !is_at_work(&self.session) {
            return None;
        }
        Some(
            self.store
                .new_vertex(rt, &mut self.second, &mut self.session, p),
        )
    }

    /// It commits; None where no transaction of it works. Nothing here says that the waits end.
    pub fn commit<R: Wait>(&mut self, rt: &R, alloc: Global) -> Option<Result<CommitEnd, Refusal>>
        requires apart { AreApart self.old.store.board.turns self.old.store.board.shards self.old.first self.old.second self.old.session }
        ensures apart { AreApart self.new.store.board.turns self.new.store.board.shards self.new.first self.new.second self.new.session }
    {
        if !is_at_work(&self.session) {
            return None;
        }
        Some(
            self.store
                .commit(rt, &mut self.second, &mut self.session, alloc),
        )
    }

    /// It is given up; None where no transaction of it works.
    pub fn abort<R: Wait>(&mut self, rt: &R) -> Option<()>
        requires apart { AreApart self.old.store.board.turns self.old.store.board.shards self.old.first self.old.second self.old.session }
        ensures apart { AreApart self.new.store.board.turns self.new.store.board.shards self.new.first self.new.second self.new.session }
    {
        if !is_at_work(&self.session) {
            return None;
        }
        self.store.abort(rt, &mut self.second, &mut self.session);
        Some(())
    }

    /// A third pass is split off the first one, and comes with a session that has done nothing in place of the second one,
    /// which is joined into the first.
    pub fn renewed(self) -> Pair<D>
        requires apart { AreApart self.store.board.turns self.store.board.shards self.first self.second self.session }
        ensures apart { AreApart result.store.board.turns result.store.board.shards result.first result.second result.session }
    {
        let Pair {
            store,
            mut first,
            second,
            session,
        } = self;
        drop(session);
        let third = store.split_pass(&mut first);
        store.join_pass(&mut first, second);
        Pair {
            store,
            first,
            second: third,
            session: Session::new(0),
        }
    }

    /// The passes are made one, and the store is closed.
    pub fn close(self) -> Closed<D>
        requires apart { AreApart self.store.board.turns self.store.board.shards self.first self.second self.session }
    {
        let Pair {
            store,
            mut first,
            second,
            session,
        } = self;
        drop(session);
        store.join_pass(&mut first, second);
        store.close(first)
    }
}
