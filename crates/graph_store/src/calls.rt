//! The calls of a session, by the store. Each is told of in full where it is defined: `store_sessions`, `store_tries` and
//! `store_commits`.

ghost use Rattle.std.specs.Prelude.{◌≡◌, ◌<◌, ◌≤◌, ◌^◌, List, None, true, false, IfOk};
ghost use Rattle.core_states.specs.declared.event.Act.TheVariants as acts;
ghost use Rattle.core_calls.specs.Calls.{Opens, Closes, Gives};
ghost use Rattle.core_calls.specs.Events.{Told};
ghost use Rattle.turn_board.specs.Board.{known};
ghost use Rattle.store_turns.specs.Fits.{actor_at, name_in};
ghost use Rattle.store_board.specs.Standing.{Stands, Goes};
ghost use Rattle.store_log.specs.LogChanges.{IsBaseOf};
ghost use Rattle.store_sessions.specs.Beginning.{BeginTells, BeginLeaves};
ghost use Rattle.store_sessions.specs.Changing.{IsAtWork, StaysAtWork, ChangeLeaves, CallTells, done_says, placed_says, taken_says};
ghost use Rattle.store_sessions.specs.Making.{NewTells};
ghost use Rattle.store_sessions.specs.Reading.{ReadTells};
ghost use Rattle.store_tries.specs.Trying.{TryBegins};
ghost use Rattle.store_commits.specs.Committing.{CommitTells, CommitLeaves};
ghost use Rattle.graph_store.specs.NewSessions.{new_session};
ghost use Rattle.graph_store.specs.Passes.{Hears, KeepsRest, told_epoch, read_in, committed_in};

use crate::pass::Pass;
use crate::store::Store;
use disk_model::Disk;
use graph_model::{Answer, NoMemory, Payload, Query};
use shard_state::{Placed, Taken};
use std::alloc::Global;
use std::sync::Wait;
use store_commits::CommitEnd;
use store_sessions::{Begun, Refusal};
use store_turns::Session;

// The epoch that a begin answers.
fn read_in(begun: &Result<Begun, Refusal>) -> Option<u64>
    ensures { result ≡ read_in begun.now }
{
    match begun {
        Ok(begun) => Some(begun.read),
        Err(_) => None,
    }
}

// The epoch that a commit answers.
fn committed_in(ended: &Result<CommitEnd, Refusal>) -> Option<u64>
    ensures { result ≡ committed_in ended.now }
{
    match ended {
        Ok(CommitEnd::Committed { epoch }) => Some(*epoch),
        _ => None,
    }
}

impl<D: Disk> Store<D> {
    /// A new session of the pass opens its row, so that its transactions may begin. Its index tells it from the other
    /// sessions of the pass; one that none of them had will do. It takes no memory.
    ///
    /// Time: one turn of the clock. Nothing here says that the wait ends.
    pub fn open_session<R: Wait>(&self, rt: &R, pass: &mut Pass<D>, index: u64) -> Session
        requires stands { Stands self.now.board.turns self.now.board.shards pass.old.seat (new_session index) }
        ensures goes { (ts : List Told) × Opens ts
            × Goes self.now.board.turns self.now.board.shards ts pass.old.seat pass.new.seat (new_session index) result }
        ensures session { result ≡ record (new_session index) { is_open = true } }
        ensures rest { KeepsRest pass.old pass.new }
    {
        let mut session = Session::new(index);
        store_sessions::open_session(rt, &self.board, &mut pass.seat, &mut session);
        session
    }

    /// The session closes its row. It takes no memory.
    ///
    /// Time: one turn of the clock. Nothing here says that the wait ends.
    pub fn close_session<R: Wait>(&self, rt: &R, pass: &mut Pass<D>, session: &mut Session)
        requires stands { Stands self.now.board.turns self.now.board.shards pass.old.seat session.old }
        requires idle { (session.old.is_open ≡ true) × (session.old.work ≡ None) }
        ensures goes { (ts : List Told) × Closes ts
            × Goes self.now.board.turns self.now.board.shards ts pass.old.seat pass.new.seat session.old session.new }
        ensures session { session.new ≡ record session.old { is_open = false } }
        ensures rest { KeepsRest pass.old pass.new }
    {
        store_sessions::close_session(rt, &self.board, &mut pass.seat, session)
    }

    /// A transaction begins, and the pass is told the epoch of its snapshot, which is at least each that the pass was told.
    /// `Spent` comes where no number is left for it, and `NoMemory` may come. After a refusal the session is as before.
    ///
    /// Time: one turn of the clock. Nothing here says that the wait ends.
    pub fn begin<R: Wait>(
        &self,
        rt: &R,
        pass: &mut Pass<D>,
        session: &mut Session,
        alloc: Global,
    ) -> Result<Begun, Refusal>
        requires stands { Stands self.now.board.turns self.now.board.shards pass.old.seat session.old }
        requires idle { (session.old.is_open ≡ true) × (session.old.work ≡ None) }
        ensures goes { (ts : List Told) × BeginTells result ts
            × Goes self.now.board.turns self.now.board.shards ts pass.old.seat pass.new.seat session.old session.new }
        ensures session { BeginLeaves result session.old session.new }
        ensures newest { IfOk result (λ b. told_epoch pass.old ≤ b.read) }
        ensures told { Hears (read_in result) pass.old pass.new }
    {
        let begun = store_sessions::begin(rt, &self.board, &mut pass.seat, session, alloc);
        pass.hear(read_in(&begun));
        begun
    }

    /// A transaction begins, in one try at the clock's turn, as by `begin`. `Busy` comes exactly where another thread had
    /// the turn, and the other refusals as of `begin`. After a refusal the session is as before.
    ///
    /// Time: logarithmic in the transactions that run, and where there is no more room for what commits keep one step
    /// for each commit since the store was opened, after which there is room for twice as many; it never waits.
    pub fn try_begin(
        &self,
        pass: &mut Pass<D>,
        session: &mut Session,
        alloc: Global,
    ) -> Result<Begun, Refusal>
        requires stands { Stands self.now.board.turns self.now.board.shards pass.old.seat session.old }
        requires idle { (session.old.is_open ≡ true) × (session.old.work ≡ None) }
        ensures goes { TryBegins self.now.board.turns self.now.board.shards result pass.old.seat pass.new.seat session.old session.new }
        ensures newest { IfOk result (λ b. told_epoch pass.old ≤ b.read) }
        ensures told { Hears (read_in result) pass.old pass.new }
    {
        let tried = store_tries::try_begin(&self.board, &mut pass.seat, session, alloc);
        pass.hear(read_in(&tried));
        tried
    }

    /// The transaction makes a vertex, and is told its number. `TxnFull`: its changes would be too long for one record.
    /// `Spent`: no number is left. `NoMemory` may come. After a refusal the transaction goes on.
    ///
    /// Time: a turn of the clock, and one of the vertex's shard. Nothing here says that the waits end.
    pub fn new_vertex<R: Wait>(
        &self,
        rt: &R,
        pass: &mut Pass<D>,
        session: &mut Session,
        p: &Payload,
    ) -> Result<u64, Refusal>
        requires stands { Stands self.now.board.turns self.now.board.shards pass.old.seat session.old }
        requires works { IsAtWork session.old }
        ensures goes { (ts : List Told) × NewTells session.old p.now result ts
            × Goes self.now.board.turns self.now.board.shards ts pass.old.seat pass.new.seat session.old session.new }
        ensures session { StaysAtWork session.old session.new }
        ensures rest { KeepsRest pass.old pass.new }
    {
        store_sessions::new_vertex(rt, &self.board, &mut pass.seat, session, p)
    }

    /// The transaction sets a vertex's payload.
    ///
    /// `NoVertex`, `TxnFull`, `LogFull`, `NoMemory`: as `Refusal` says, and the transaction goes on. `Held`, `Conflict`:
    /// it is undone and has ended. After `Ok` it owns the vertex.
    ///
    /// Time: 1 to 16 turns of the vertex's shard, and with `Held` and `Conflict` one for each vertex that was taken and
    /// one of the clock. Nothing here says that the waits end.
    pub fn set_vertex<R: Wait>(
        &self,
        rt: &R,
        pass: &mut Pass<D>,
        session: &mut Session,
        v: u64,
        p: &Payload,
    ) -> Result<(), Refusal>
        requires stands { Stands self.now.board.turns self.now.board.shards pass.old.seat session.old }
        requires works { IsAtWork session.old }
        ensures goes { (ts : List Told) × CallTells done_says v (acts.Set v p.now) result ts
            × Goes self.now.board.turns self.now.board.shards ts pass.old.seat pass.new.seat session.old session.new }
        ensures session { ChangeLeaves result session.old session.new }
        ensures rest { KeepsRest pass.old pass.new }
    {
        store_sessions::set_vertex(rt, &self.board, &mut pass.seat, session, v, p)
    }

    /// The transaction removes a vertex.
    ///
    /// `NoVertex`, `TxnFull`, `LogFull`, `NoMemory`: as `Refusal` says, and the transaction goes on. `Held`, `Conflict`:
    /// it is undone and has ended. After `Ok` it owns the vertex.
    ///
    /// Time: 1 to 16 turns of the vertex's shard, and with `Held` and `Conflict` one for each vertex that was taken and
    /// one of the clock. Nothing here says that the waits end.
    pub fn drop_vertex<R: Wait>(
        &self,
        rt: &R,
        pass: &mut Pass<D>,
        session: &mut Session,
        v: u64,
    ) -> Result<(), Refusal>
        requires stands { Stands self.now.board.turns self.now.board.shards pass.old.seat session.old }
        requires works { IsAtWork session.old }
        ensures goes { (ts : List Told) × CallTells done_says v (acts.Drop v) result ts
            × Goes self.now.board.turns self.now.board.shards ts pass.old.seat pass.new.seat session.old session.new }
        ensures session { ChangeLeaves result session.old session.new }
        ensures rest { KeepsRest pass.old pass.new }
    {
        store_sessions::drop_vertex(rt, &self.board, &mut pass.seat, session, v)
    }

    /// The transaction puts the edge from `v` to `d` under the label `l` in front of its list; one to `d` that is there
    /// it replaces.
    ///
    /// `NoVertex`, `TxnFull`, `LogFull`, `NoMemory`: as `Refusal` says, and the transaction goes on. `Held`, `Conflict`:
    /// it is undone and has ended. After `Ok` it owns the vertex.
    ///
    /// Time: 1 to 16 turns of the vertex's shard, and with `Held` and `Conflict` one for each vertex that was taken and
    /// one of the clock. Nothing here says that the waits end.
    pub fn put_edge<R: Wait>(
        &self,
        rt: &R,
        pass: &mut Pass<D>,
        session: &mut Session,
        v: u64,
        l: u16,
        d: u64,
        p: &Payload,
    ) -> Result<Placed, Refusal>
        requires stands { Stands self.now.board.turns self.now.board.shards pass.old.seat session.old }
        requires works { IsAtWork session.old }
        requires destination { d < 2 ^ 63 }
        ensures goes { (ts : List Told) × CallTells placed_says v (acts.Put v l d p.now) result ts
            × Goes self.now.board.turns self.now.board.shards ts pass.old.seat pass.new.seat session.old session.new }
        ensures session { ChangeLeaves result session.old session.new }
        ensures rest { KeepsRest pass.old pass.new }
    {
        store_sessions::put_edge(rt, &self.board, &mut pass.seat, session, v, l, d, p)
    }

    /// The transaction takes the edge from `v` to `d` under the label `l` out of its list. `Absent` comes exactly where
    /// the core says that the transaction sees no such edge.
    ///
    /// `NoVertex`, `TxnFull`, `LogFull`, `NoMemory`: as `Refusal` says, and the transaction goes on. `Held`, `Conflict`:
    /// it is undone and has ended. After `Ok` it owns the vertex.
    ///
    /// Time: 1 to 16 turns of the vertex's shard, and with `Held` and `Conflict` one for each vertex that was taken and
    /// one of the clock. Nothing here says that the waits end.
    pub fn del_edge<R: Wait>(
        &self,
        rt: &R,
        pass: &mut Pass<D>,
        session: &mut Session,
        v: u64,
        l: u16,
        d: u64,
    ) -> Result<Taken, Refusal>
        requires stands { Stands self.now.board.turns self.now.board.shards pass.old.seat session.old }
        requires works { IsAtWork session.old }
        ensures goes { (ts : List Told) × CallTells taken_says v (acts.Del v l d) result ts
            × Goes self.now.board.turns self.now.board.shards ts pass.old.seat pass.new.seat session.old session.new }
        ensures session { ChangeLeaves result session.old session.new }
        ensures rest { KeepsRest pass.old pass.new }
    {
        store_sessions::del_edge(rt, &self.board, &mut pass.seat, session, v, l, d)
    }

    /// The transaction reads: a vertex, an edge, all edges of a list with the newest first, or the labels of a vertex. The
    /// session is only lent. `NoMemory` may come.
    ///
    /// Time: one turn of the vertex's shard, the entries of the log that are walked, and the bytes of the answer. Nothing here
    /// says that the wait ends.
    pub fn read<R: Wait>(
        &self,
        rt: &R,
        pass: &mut Pass<D>,
        session: &Session,
        query: &Query,
    ) -> Result<Answer, NoMemory>
        requires stands { Stands self.now.board.turns self.now.board.shards pass.old.seat session.now }
        requires works { IsAtWork session.now }
        ensures goes { (ts : List Told) × ReadTells query.now result ts
            × Goes self.now.board.turns self.now.board.shards ts pass.old.seat pass.new.seat session.now session.now }
        ensures rest { KeepsRest pass.old pass.new }
    {
        store_sessions::read(rt, &self.board, &mut pass.seat, session, query)
    }

    /// The transaction commits. It is answered once its record is durable and its epoch is visible, which the pass is told.
    ///
    /// `LogFault`: the append of the record's group met a fault of the disk; the transaction was undone. In each case the
    /// transaction has ended. It takes no memory.
    ///
    /// Time: the bytes of the group and two syncs, and one turn of a shard for each vertex that was taken. Nothing here
    /// says that the waits end.
    pub fn commit<R: Wait>(
        &self,
        rt: &R,
        pass: &mut Pass<D>,
        session: &mut Session,
        alloc: Global,
    ) -> Result<CommitEnd, Refusal>
        requires stands { Stands self.now.board.turns self.now.board.shards pass.old.seat session.old }
        requires found { IsBaseOf (known pass.old.seat).base (known pass.old.seat).found.records }
        requires works { IsAtWork session.old }
        ensures goes { (ts : List Told) × CommitTells session.old result ts
            × Goes self.now.board.turns self.now.board.shards ts pass.old.seat pass.new.seat session.old session.new }
        ensures ends { CommitLeaves result session.old session.new
            (actor_at (known pass.new.seat) (name_in (known pass.old.seat) session.old.index)) }
        ensures told { Hears (committed_in result) pass.old pass.new }
    {
        let ended = store_commits::commit(rt, alloc, &self.board, &mut pass.seat, session);
        pass.hear(committed_in(&ended));
        ended
    }

    /// The transaction is given up: what it changed is undone, and it has ended. It takes no memory.
    ///
    /// Time: for each vertex that it took one turn of its shard, and one of the clock. Nothing here says that the waits
    /// end.
    pub fn abort<R: Wait>(&self, rt: &R, pass: &mut Pass<D>, session: &mut Session)
        requires stands { Stands self.now.board.turns self.now.board.shards pass.old.seat session.old }
        requires works { IsAtWork session.old }
        ensures goes { (ts : List Told) × Gives ts
            × Goes self.now.board.turns self.now.board.shards ts pass.old.seat pass.new.seat session.old session.new }
        ensures idle { session.new ≡ record session.old { work = None } }
        ensures rest { KeepsRest pass.old pass.new }
    {
        store_sessions::give_up(rt, &self.board, &mut pass.seat, session)
    }
}
