//! The changes that a transaction makes at the vertices of a shard.

ghost use Rattle.std.specs.Prelude.{◌≡◌, ◌≤◌, ◌<◌, ℕ, Some, None, OnOk, OnErr};
ghost use Rattle.graph_model.specs.declared.change.Change.TheVariants as change;
ghost use Rattle.graph_model.specs.Change.{encoded_len};
ghost use Rattle.graph_model.specs.Records.{destination_end};
ghost use Rattle.core_rows.specs.Rows.{fresh_row, push_row};
ghost use Rattle.core_states.specs.declared.event.Act.TheVariants as act;
ghost use Rattle.number_map.specs.KeptAt.{kept_at, IsWith};
ghost use Rattle.shard_state.specs.Shards.{row_at, IsOf, IsShard, SameShard, KeepsRows, MayChange, limits_with};
ghost use Rattle.shard_state.specs.Says.{Changes, Makes, says_placed, says_taken, says_done};

use crate::{Placed, Shard, ShardRefusal, Taken, Who, row_changes};
use edge_log::EdgeLog;
use graph_model::{NoMemory, Payload};
use vertex_rows::VertexRow;

impl<L: EdgeLog> Shard<L, L::Room> {
    /// Sets an edge of a vertex that the transaction sees, for the transaction, which owns the vertex from then on. It
    /// need not look at the vertex, or has looked. The refusals are judged in this order: NoVertex, TxnFull, LogFull;
    /// NoMemory may come behind NoVertex.
    ///
    /// Time: that of `find` in the log of the label, or of `start` where the label has none, and one step for each
    /// byte; amortized, where the log grows.
    pub fn put(
        &mut self,
        who: &Who,
        v: u64,
        l: u16,
        d: u64,
        p: &Payload,
    ) -> Result<Placed, ShardRefusal>
        requires shard { IsShard L.stands L.footprint L.content L.limit self.old }
        requires own { IsOf v self.old }
        requires may { MayChange who.now (row_at L.content self.old v) }
        requires destination { d < destination_end }
        requires number { L.keeps_number who.now.tid }
        ensures shard { IsShard L.stands L.footprint L.content L.limit self.new }
        ensures same { SameShard self.old self.new }
        ensures event { Changes (limits_with self.old.log_most) who.now (act.Put v l d p.now) (change.Put v l d p.now)
            (row_at L.content self.old v) (says_placed result) (row_at L.content self.new v) }
        ensures keeps { KeepsRows L.content v self.old self.new }
    {
        let place = self.place(v);
        match self.rows.get_mut(place) {
            Some(row) => row_changes::put(row, self.alloc, &mut self.room, who, v, l, d, p),
            None => Err(ShardRefusal::NoVertex),
        }
    }

    /// Ends an edge of a vertex that the transaction sees, for the transaction, which owns the vertex from then on, also
    /// where there is no such edge. NoVertex is judged first, then whether the edge is there, then TxnFull; NoMemory
    /// may come behind NoVertex. LogFull never comes.
    ///
    /// Time: that of `find` in the log of the label.
    pub fn del(&mut self, who: &Who, v: u64, l: u16, d: u64) -> Result<Taken, ShardRefusal>
        requires shard { IsShard L.stands L.footprint L.content L.limit self.old }
        requires own { IsOf v self.old }
        requires may { MayChange who.now (row_at L.content self.old v) }
        requires number { L.keeps_number who.now.tid }
        ensures shard { IsShard L.stands L.footprint L.content L.limit self.new }
        ensures same { SameShard self.old self.new }
        ensures event { Changes (limits_with self.old.log_most) who.now (act.Del v l d) (change.Del v l d)
            (row_at L.content self.old v) (says_taken result) (row_at L.content self.new v) }
        ensures keeps { KeepsRows L.content v self.old self.new }
    {
        let place = self.place(v);
        match self.rows.get_mut(place) {
            Some(row) => row_changes::del(row, &mut self.room, who, l, d),
            None => Err(ShardRefusal::NoVertex),
        }
    }

    /// Sets the payload of a vertex that the transaction sees, for the transaction, which owns the vertex from then on.
    /// NoVertex is judged first, then TxnFull; NoMemory may come behind NoVertex. LogFull never comes. Time: amortized
    /// constant.
    pub fn set(&mut self, who: &Who, v: u64, p: &Payload) -> Result<(), ShardRefusal>
        requires shard { IsShard L.stands L.footprint L.content L.limit self.old }
        requires own { IsOf v self.old }
        requires may { MayChange who.now (row_at L.content self.old v) }
        ensures shard { IsShard L.stands L.footprint L.content L.limit self.new }
        ensures same { SameShard self.old self.new }
        ensures event { Changes (limits_with self.old.log_most) who.now (act.Set v p.now) (change.Set v p.now)
            (row_at L.content self.old v) (says_done result) (row_at L.content self.new v) }
        ensures keeps { KeepsRows L.content v self.old self.new }
    {
        let place = self.place(v);
        match self.rows.get_mut(place) {
            Some(row) => row_changes::set(row, who, p),
            None => Err(ShardRefusal::NoVertex),
        }
    }

    /// Drops a vertex that the transaction sees, for the transaction, which owns the vertex from then on. The refusals
    /// are those of `set`. Time: amortized constant.
    pub fn drop_vertex(&mut self, who: &Who, v: u64) -> Result<(), ShardRefusal>
        requires shard { IsShard L.stands L.footprint L.content L.limit self.old }
        requires own { IsOf v self.old }
        requires may { MayChange who.now (row_at L.content self.old v) }
        ensures shard { IsShard L.stands L.footprint L.content L.limit self.new }
        ensures same { SameShard self.old self.new }
        ensures event { Changes (limits_with self.old.log_most) who.now (act.Drop v) (change.Drop v)
            (row_at L.content self.old v) (says_done result) (row_at L.content self.new v) }
        ensures keeps { KeepsRows L.content v self.old self.new }
    {
        let place = self.place(v);
        match self.rows.get_mut(place) {
            Some(row) => row_changes::drop_vertex(row, who),
            None => Err(ShardRefusal::NoVertex),
        }
    }

    /// Makes a vertex of a number that was never used, for the transaction, which owns the vertex from then on. The
    /// change is not too long. After NoMemory the vertex is as before. Time: amortized constant.
    pub fn new_vertex(&mut self, who: &Who, v: u64, p: &Payload) -> Result<(), NoMemory>
    where
        L: Drop,
        requires shard { IsShard L.stands L.footprint L.content L.limit self.old }
        requires own { IsOf v self.old }
        requires fresh { row_at L.content self.old v ≡ fresh_row }
        requires short { encoded_len (change.New v p.now) ≤ who.now.left }
        ensures shard { IsShard L.stands L.footprint L.content L.limit self.new }
        ensures same { SameShard self.old self.new }
        ensures made { OnOk result (row_at L.content self.new v
            ≡ push_row who.now.tid (Some p.now) (row_at L.content self.old v)) }
        ensures event { OnOk result (Makes (limits_with self.old.log_most) who.now v p.now
            (row_at L.content self.old v) (row_at L.content self.new v)) }
        ensures unchanged { OnErr result (row_at L.content self.new v ≡ row_at L.content self.old v) }
        ensures keeps { KeepsRows L.content v self.old self.new }
    {
        let place = self.place(v);
        if let Some(row) = self.rows.get_mut(place) {
            return row_changes::make_vertex(row, who, p);
        }
        let mut row = VertexRow::new(self.alloc, self.log_most);
        row_changes::make_vertex(&mut row, who, p)?;
        self.add(place, row)
    }

    // Keeps a row at a place where none is.
    pub(crate) fn add(&mut self, place: u64, row: VertexRow<L>) -> Result<(), NoMemory>
    where
        L: Drop,
        requires absent { kept_at self.old.rows place ≡ None }
        ensures kept { OnOk result (IsWith place (Some row) self.old.rows self.new.rows) }
        ensures unchanged { OnErr result ((n : ℕ) → kept_at self.new.rows n ≡ kept_at self.old.rows n) }
        ensures rest { self.new ≡ record self.old { rows = self.new.rows } }
    {
        match self.rows.insert(place, row) {
            Ok(()) => Ok(()),
            Err(_) => Err(NoMemory),
        }
    }
}
