//! A store, its only pass, and two sessions, which take turns.

ghost use Rattle.std.specs.Prelude.{◌≡◌, ◌<◌, ◌≤◌, ◌^◌, IfSome, IsTrue, None, [], true};
ghost use Rattle.graph_model.specs.Records.{list_most};
ghost use Rattle.store_sessions.specs.Changing.{IsAtWork};
ghost use Rattle.graph_store.specs.NewSessions.{new_session};
ghost use Rattle.store_stories.specs.AtDesk.{AreAtDesk};

use disk_model::Disk;
use graph_model::{Labels, NoMemory, Pairs, Payload};
use graph_store::{
    Begun, Closed, CommitEnd, Pass, Placed, Refusal, Session, Settings, Store, Taken, empty_base,
};
use graph_wal::Wal;
use std::alloc::Global;
use std::mem;
use std::sync::Wait;

/// A store, its only pass, and two sessions. The calls are those of the first; `turn` lets the other be the first.
pub struct Desk<D: Disk> {
    pub store: Store<D>,
    pub pass: Pass<D>,
    pub session: Session,
    pub other: Session,
}

/// A store over a new log on an empty disk, and two sessions that have done nothing; None where the disk failed or
/// memory ran out.
pub fn desk_over<D: Disk + Drop>(alloc: Global, disk: D, settings: Settings) -> Option<Desk<D>>
    requires empty { IfSome (D.told disk) (λ b. b ≡ []) }
    requires some { (0 < settings.shards) × (settings.shards ≤ 64) }
    requires most { settings.log_most ≤ list_most }
    ensures at_desk { IfSome result (λ d.
        AreAtDesk d.store.board.turns d.store.board.shards d.pass d.session d.other) }
{
    let Ok(wal) = Wal::make(disk) else {
        return None;
    };
    let base = empty_base(alloc);
    let Ok((store, pass)) = Store::open(alloc, &base, wal, settings) else {
        return None;
    };
    Some(Desk {
        store,
        pass,
        session: Session::new(0),
        other: Session::new(1),
    })
}

/// Whether the session's row is open, and no transaction runs.
pub(crate) fn is_idle(session: &Session) -> bool
    ensures { IsTrue result → (session.now.is_open ≡ true) × (session.now.work ≡ None) }
{
    session.is_open && session.work.is_none()
}

/// Whether the session has done nothing.
pub(crate) fn is_new(session: &Session) -> bool
    ensures { IsTrue result → session.now ≡ new_session session.now.index }
{
    !session.is_open && session.finished.is_none() && session.work.is_none()
}

/// Whether a transaction of the session works.
pub(crate) fn is_at_work(session: &Session) -> bool
    ensures { IsTrue result → IsAtWork session.now }
{
    match session.working() {
        Some(_) => true,
        None => false,
    }
}

impl<D: Disk> Desk<D> {
    /// The other session takes its turn.
    pub fn turn(&mut self)
        requires at_desk { AreAtDesk self.old.store.board.turns self.old.store.board.shards self.old.pass self.old.session self.old.other }
        ensures at_desk { AreAtDesk self.new.store.board.turns self.new.store.board.shards self.new.pass self.new.session self.new.other }
    {
        mem::swap(&mut self.session, &mut self.other);
    }

    /// The session opens its row, where it has done nothing.
    pub fn open_row<R: Wait>(&mut self, rt: &R)
        requires at_desk { AreAtDesk self.old.store.board.turns self.old.store.board.shards self.old.pass self.old.session self.old.other }
        ensures at_desk { AreAtDesk self.new.store.board.turns self.new.store.board.shards self.new.pass self.new.session self.new.other }
    {
        if is_new(&self.session) {
            let index = self.session.index;
            self.session = self.store.open_session(rt, &mut self.pass, index);
        }
    }

    /// A transaction of the session begins; None where its row is closed, or one runs.
    pub fn begin<R: Wait>(&mut self, rt: &R, alloc: Global) -> Option<Result<Begun, Refusal>>
        requires at_desk { AreAtDesk self.old.store.board.turns self.old.store.board.shards self.old.pass self.old.session self.old.other }
        ensures at_desk { AreAtDesk self.new.store.board.turns self.new.store.board.shards self.new.pass self.new.session self.new.other }
    {
        if !is_idle(&self.session) {
            return None;
        }
        Some(
            self.store
                .begin(rt, &mut self.pass, &mut self.session, alloc),
        )
    }

    /// It makes a vertex; None where no transaction of the session works.
    pub fn new_vertex<R: Wait>(&mut self, rt: &R, p: &Payload) -> Option<Result<u64, Refusal>>
        requires at_desk { AreAtDesk self.old.store.board.turns self.old.store.board.shards self.old.pass self.old.session self.old.other }
        ensures at_desk { AreAtDesk self.new.store.board.turns self.new.store.board.shards self.new.pass self.new.session self.new.other }
    {
        if !is_at_work(&self.session) {
            return None;
        }
        Some(
            self.store
                .new_vertex(rt, &mut self.pass, &mut self.session, p),
        )
    }

    /// It puts an edge; None where no transaction of the session works.
    pub fn put_edge<R: Wait>(
        &mut self,
        rt: &R,
        v: u64,
        l: u16,
        d: u64,
        p: &Payload,
    ) -> Option<Result<Placed, Refusal>>
        requires at_desk { AreAtDesk self.old.store.board.turns self.old.store.board.shards self.old.pass self.old.session self.old.other }
        requires destination { d < 2 ^ 63 }
        ensures at_desk { AreAtDesk self.new.store.board.turns self.new.store.board.shards self.new.pass self.new.session self.new.other }
    {
        if !is_at_work(&self.session) {
            return None;
        }
        Some(
            self.store
                .put_edge(rt, &mut self.pass, &mut self.session, v, l, d, p),
        )
    }

    /// It sets a vertex's payload; None where no transaction of the session works.
    pub fn set_vertex<R: Wait>(
        &mut self,
        rt: &R,
        v: u64,
        p: &Payload,
    ) -> Option<Result<(), Refusal>>
        requires at_desk { AreAtDesk self.old.store.board.turns self.old.store.board.shards self.old.pass self.old.session self.old.other }
        ensures at_desk { AreAtDesk self.new.store.board.turns self.new.store.board.shards self.new.pass self.new.session self.new.other }
    {
        if !is_at_work(&self.session) {
            return None;
        }
        Some(
            self.store
                .set_vertex(rt, &mut self.pass, &mut self.session, v, p),
        )
    }

    /// It removes a vertex; None where no transaction of the session works.
    pub fn drop_vertex<R: Wait>(&mut self, rt: &R, v: u64) -> Option<Result<(), Refusal>>
        requires at_desk { AreAtDesk self.old.store.board.turns self.old.store.board.shards self.old.pass self.old.session self.old.other }
        ensures at_desk { AreAtDesk self.new.store.board.turns self.new.store.board.shards self.new.pass self.new.session self.new.other }
    {
        if !is_at_work(&self.session) {
            return None;
        }
        Some(
            self.store
                .drop_vertex(rt, &mut self.pass, &mut self.session, v),
        )
    }

    /// It takes an edge out; None where no transaction of the session works.
    pub fn del_edge<R: Wait>(
        &mut self,
        rt: &R,
        v: u64,
        l: u16,
        d: u64,
    ) -> Option<Result<Taken, Refusal>>
        requires at_desk { AreAtDesk self.old.store.board.turns self.old.store.board.shards self.old.pass self.old.session self.old.other }
        ensures at_desk { AreAtDesk self.new.store.board.turns self.new.store.board.shards self.new.pass self.new.session self.new.other }
    {
        if !is_at_work(&self.session) {
            return None;
        }
        Some(
            self.store
                .del_edge(rt, &mut self.pass, &mut self.session, v, l, d),
        )
    }

    /// It is given up; None where no transaction of the session works.
    pub fn abort<R: Wait>(&mut self, rt: &R) -> Option<()>
        requires at_desk { AreAtDesk self.old.store.board.turns self.old.store.board.shards self.old.pass self.old.session self.old.other }
        ensures at_desk { AreAtDesk self.new.store.board.turns self.new.store.board.shards self.new.pass self.new.session self.new.other }
    {
        if !is_at_work(&self.session) {
            return None;
        }
        self.store.abort(rt, &mut self.pass, &mut self.session);
        Some(())
    }

    /// It reads a vertex; None where no transaction of the session works.
    pub fn get_vertex<R: Wait>(
        &mut self,
        rt: &R,
        v: u64,
    ) -> Option<Result<Option<Payload>, NoMemory>>
        requires at_desk { AreAtDesk self.old.store.board.turns self.old.store.board.shards self.old.pass self.old.session self.old.other }
        ensures at_desk { AreAtDesk self.new.store.board.turns self.new.store.board.shards self.new.pass self.new.session self.new.other }
    {
        if !is_at_work(&self.session) {
            return None;
        }
        Some(self.store.get_vertex(rt, &mut self.pass, &self.session, v))
    }

    /// It reads an edge; None where no transaction of the session works.
    pub fn get_edge<R: Wait>(
        &mut self,
        rt: &R,
        v: u64,
        l: u16,
        d: u64,
    ) -> Option<Result<Option<Payload>, Refusal>>
        requires at_desk { AreAtDesk self.old.store.board.turns self.old.store.board.shards self.old.pass self.old.session self.old.other }
        ensures at_desk { AreAtDesk self.new.store.board.turns self.new.store.board.shards self.new.pass self.new.session self.new.other }
    {
        if !is_at_work(&self.session) {
            return None;
        }
        Some(
            self.store
                .get_edge(rt, &mut self.pass, &self.session, v, l, d),
        )
    }

    /// It reads the labels of a vertex; None where no transaction of the session works.
    pub fn labels<R: Wait>(&mut self, rt: &R, v: u64) -> Option<Result<Labels, Refusal>>
        requires at_desk { AreAtDesk self.old.store.board.turns self.old.store.board.shards self.old.pass self.old.session self.old.other }
        ensures at_desk { AreAtDesk self.new.store.board.turns self.new.store.board.shards self.new.pass self.new.session self.new.other }
    {
        if !is_at_work(&self.session) {
            return None;
        }
        Some(self.store.labels(rt, &mut self.pass, &self.session, v))
    }

    /// It reads a list of edges; None where no transaction of the session works.
    pub fn scan_whole<R: Wait>(&mut self, rt: &R, v: u64, l: u16) -> Option<Result<Pairs, Refusal>>
        requires at_desk { AreAtDesk self.old.store.board.turns self.old.store.board.shards self.old.pass self.old.session self.old.other }
        ensures at_desk { AreAtDesk self.new.store.board.turns self.new.store.board.shards self.new.pass self.new.session self.new.other }
    {
        if !is_at_work(&self.session) {
            return None;
        }
        Some(
            self.store
                .scan_whole(rt, &mut self.pass, &self.session, v, l),
        )
    }

    /// It commits; None where no transaction of the session works. Nothing here says that the waits end.
    pub fn commit<R: Wait>(&mut self, rt: &R, alloc: Global) -> Option<Result<CommitEnd, Refusal>>
        requires at_desk { AreAtDesk self.old.store.board.turns self.old.store.board.shards self.old.pass self.old.session self.old.other }
        ensures at_desk { AreAtDesk self.new.store.board.turns self.new.store.board.shards self.new.pass self.new.session self.new.other }
    {
        if !is_at_work(&self.session) {
            return None;
        }
        Some(
            self.store
                .commit(rt, &mut self.pass, &mut self.session, alloc),
        )
    }

    /// The session closes its row, where it is open and no transaction runs.
    pub fn close_row<R: Wait>(&mut self, rt: &R)
        requires at_desk { AreAtDesk self.old.store.board.turns self.old.store.board.shards self.old.pass self.old.session self.old.other }
        ensures at_desk { AreAtDesk self.new.store.board.turns self.new.store.board.shards self.new.pass self.new.session self.new.other }
    {
        if is_idle(&self.session) {
            self.store
                .close_session(rt, &mut self.pass, &mut self.session);
        }
    }

    /// The store is closed.
    pub fn close(self) -> Closed<D>
        requires at_desk { AreAtDesk self.store.board.turns self.store.board.shards self.pass self.session self.other }
    {
        let Desk {
            store,
            pass,
            session,
            other,
        } = self;
        drop(session);
        drop(other);
        store.close(pass)
    }
}
