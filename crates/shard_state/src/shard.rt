//! The shard, what a transaction finds at its vertices, and how a transaction ends there.

ghost use Rattle.std.specs.Prelude.{◌≡◌, ◌↔◌, ◌≤◌, ◌<◌, ◌/◌, ℕ, false, true, is_some, Some, None, IfOk, IsTrue};
ghost use Rattle.graph_model.specs.Records.{list_most};
ghost use Rattle.graph_model.specs.Payload.{payload_most};
ghost use Rattle.graph_model.specs.Graph.{asked_vertex, seen};
ghost use Rattle.stamps.specs.Stamps.{Txn};
ghost use Rattle.core_rows.specs.Rows.{fresh_row, shown_vertex, lock_answer, apply_row, undo_row};
ghost use Rattle.number_map.specs.KeptAt.{kept_at};
ghost use Rattle.shard_state.specs.Shards.{row_at, IsOf, IsShard, IsLockOf, SameShard, KeepsRows, MayChange, must_look, limits_with};
ghost use Rattle.shard_state.specs.Says.{Looks, Reads, Applies, Undoes};

use crate::Who;
use edge_log::{EdgeLog, Part};
use graph_model::{Answer, NoMemory, Payload, Query};
use number_map::NumberMap;
use std::alloc::Global;
use vertex_locks::{LockRow, Look};
use vertex_rows::VertexRow;

/// The rows of the vertices of one shard, whose logs lie in the room.
#[derive(Drop)]
pub struct Shard<L, R> {
    pub(crate) alloc: Global,
    number: u32,
    shards: u32,
    // The limit on the sum of the sizes of a log's entries.
    pub(crate) log_most: u64,
    pub(crate) rows: NumberMap<VertexRow<L>>,
    pub(crate) room: R,
    // Where scans put what they find.
    pub(crate) part: Part,
}

impl<L: EdgeLog> Shard<L, L::Room> {
    /// The shard of this number among so many, in which no vertex was ever there. NoMemory where there is none for a
    /// part of a scan: the room is lost.
    pub fn new(
        alloc: Global,
        number: u32,
        shards: u32,
        log_most: u64,
        room: L::Room,
    ) -> Result<Shard<L, L::Room>, NoMemory>
    where
        L::Room: Drop,
        requires among { number < shards }
        requires most { log_most ≤ list_most }
        ensures shard { IfOk result (IsShard L.stands L.footprint L.content L.limit) }
        ensures fresh { IfOk result (λ shard. (v : ℕ) → row_at L.content shard v ≡ fresh_row) }
        ensures empty { IfOk result (λ shard. (n : ℕ) → kept_at shard.rows n ≡ None) }
        ensures is { IfOk result (λ shard. (shard.number ≡ number) × (shard.shards ≡ shards) × (shard.log_most ≡ log_most)) }
    {
        let part = Part::new(alloc, Payload::MOST)?;
        Ok(Shard {
            alloc,
            number,
            shards,
            log_most,
            rows: NumberMap::new(alloc),
            room,
            part,
        })
    }

    // The place of a vertex of the shard.
    pub(crate) fn place(&self, v: u64) -> u64
        requires { IsShard L.stands L.footprint L.content L.limit self.now }
        ensures { result ≡ v / self.now.shards }
    {
        v / self.shards as u64
    }

    /// Whether the transaction sees the vertex and can't take it. Time: one step for each newer version.
    pub fn must_look(&self, who: &Who, v: u64) -> bool
        requires shard { IsShard L.stands L.footprint L.content L.limit self.now }
        requires own { IsOf v self.now }
        ensures { result ≡ must_look who.now (row_at L.content self.now v) }
    {
        match self.rows.get(self.place(v)) {
            Some(row) => {
                row.is_there(who.tid, who.read) && row.look(who.tid, who.read) != Look::Taken
            }
            None => false,
        }
    }

    /// Who owns a vertex, and the epoch of the last commit that changed it, or 0. Time: constant.
    pub fn lock(&self, v: u64) -> LockRow
        requires shard { IsShard L.stands L.footprint L.content L.limit self.now }
        requires own { IsOf v self.now }
        ensures { IsLockOf result (row_at L.content self.now v) }
    {
        match self.rows.get(self.place(v)) {
            Some(row) => row.lock(),
            None => LockRow {
                owner: None,
                committed: 0,
            },
        }
    }

    /// Whether the transaction may change the vertex: it need not look at it, and where it owns it no commit after its
    /// snapshot changed it. Time: that of `must_look`.
    pub fn may_change(&self, who: &Who, v: u64) -> bool
        requires shard { IsShard L.stands L.footprint L.content L.limit self.now }
        requires own { IsOf v self.now }
        ensures { IsTrue result ↔ MayChange who.now (row_at L.content self.now v) }
    {
        let lock = self.lock(v);
        !self.must_look(who, v) && (lock.owner != Some(who.tid) || lock.committed <= who.read)
    }

    /// Whether a row of the vertex is kept; where none is, the vertex was never there. Time: constant.
    pub fn is_kept(&self, v: u64) -> bool
        requires shard { IsShard L.stands L.footprint L.content L.limit self.now }
        ensures kept { result ≡ is_some (kept_at self.now.rows (v / self.now.shards)) }
        ensures fresh { result ≡ false → row_at L.content self.now v ≡ fresh_row }
    {
        self.rows.get(self.place(v)).is_some()
    }

    /// What a look at a vertex answers that the transaction sees and can't take. Time: constant.
    pub fn look(&self, who: &Who, v: u64) -> Look
        requires shard { IsShard L.stands L.footprint L.content L.limit self.now }
        requires own { IsOf v self.now }
        requires looks { must_look who.now (row_at L.content self.now v) ≡ true }
        ensures answer { result ≡ lock_answer (row_at L.content self.now v) who.now.tid who.now.read }
        ensures event { Looks (limits_with self.now.log_most) who.now v (row_at L.content self.now v) result }
    {
        match self.rows.get(self.place(v)) {
            Some(row) => row.look(who.tid, who.read),
            None => Look::Taken,
        }
    }

    /// What the transaction sees of the vertex that is asked for. NoMemory where there is none for the answer: all is as
    /// before. Time: what it reads, entry for entry and byte for byte; for the labels, that of sorting them too.
    pub fn read(&mut self, who: &Who, q: &Query) -> Result<Answer, NoMemory>
        requires shard { IsShard L.stands L.footprint L.content L.limit self.old }
        requires own { IsOf (asked_vertex q.now) self.old }
        ensures shard { IsShard L.stands L.footprint L.content L.limit self.new }
        ensures same { SameShard self.old self.new }
        ensures answer { IfOk result (λ answer. answer ≡ seen (shown_vertex (asked_vertex q.now)
            (row_at L.content self.old (asked_vertex q.now)) who.now.read (Txn who.now.tid)) q.now) }
        ensures event { IfOk result (Reads (limits_with self.old.log_most) who.now q.now
            (row_at L.content self.old (asked_vertex q.now))) }
        ensures keeps { (v : ℕ) → row_at L.content self.new v ≡ row_at L.content self.old v }
    {
        let alloc = self.alloc;
        let place = self.place(q.vertex());
        match self.rows.get(place) {
            Some(row) => row.read(alloc, &self.room, &mut self.part, who.tid, who.read, q),
            None => Ok(Answer::NoVertex),
        }
    }

    /// Gives a vertex free that the transaction owns, whose record has this epoch. Where the record changed the
    /// vertex, what is private to the transaction there is committed first, at this epoch. It takes no memory.
    ///
    /// Time: one step for each log that the transaction touched, each version that it pushed, and each entry that it
    /// appended or ended.
    pub fn apply(&mut self, v: u64, tid: u64, epoch: u64, changed: bool)
        requires shard { IsShard L.stands L.footprint L.content L.limit self.old }
        requires own { IsOf v self.old }
        requires owner { (row_at L.content self.old v).owner ≡ Some tid }
        requires later { (row_at L.content self.old v).committed ≤ epoch }
        requires told { changed ≡ false → undo_row tid (row_at L.content self.old v)
            ≡ apply_row tid epoch false (row_at L.content self.old v) }
        requires epoch { L.keeps_epoch epoch }
        ensures shard { IsShard L.stands L.footprint L.content L.limit self.new }
        ensures same { SameShard self.old self.new }
        ensures applied { row_at L.content self.new v ≡ apply_row tid epoch changed (row_at L.content self.old v) }
        ensures event { Applies (limits_with self.old.log_most) v tid epoch changed
            (row_at L.content self.old v) (row_at L.content self.new v) }
        ensures keeps { KeepsRows L.content v self.old self.new }
    {
        let place = self.place(v);
        if let Some(row) = self.rows.get_mut(place) {
            row.apply(&mut self.room, tid, epoch, changed);
        }
    }

    /// Gives up what is private to the transaction at a vertex that it owns, and gives the vertex free. It takes no
    /// memory. Time: that of `apply`.
    pub fn undo(&mut self, v: u64, tid: u64)
        requires shard { IsShard L.stands L.footprint L.content L.limit self.old }
        requires own { IsOf v self.old }
        requires owner { (row_at L.content self.old v).owner ≡ Some tid }
        ensures shard { IsShard L.stands L.footprint L.content L.limit self.new }
        ensures same { SameShard self.old self.new }
        ensures undone { row_at L.content self.new v ≡ undo_row tid (row_at L.content self.old v) }
        ensures event { Undoes (limits_with self.old.log_most) v tid
            (row_at L.content self.old v) (row_at L.content self.new v) }
        ensures keeps { KeepsRows L.content v self.old self.new }
    {
        let place = self.place(v);
        if let Some(row) = self.rows.get_mut(place) {
            row.undo(&mut self.room, tid);
        }
    }
}
