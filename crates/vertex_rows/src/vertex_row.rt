//! The row of one vertex.

ghost use Rattle.std.specs.Prelude.{◌≡◌, ℕ, ◌+◌, ◌<◌, ◌≤◌, ◌↔◌, [], length, get_or, true, false, nat_eq, position, Some, None, Err, OnErr, OnOk, IfOk, is_ok, is_some, if◌then◌else◌};
ghost use Rattle.graph_model.specs.Change.{edge_size};
ghost use Rattle.graph_model.specs.Graph.{pair_to};
ghost use Rattle.graph_model.specs.Records.{list_most};
ghost use Rattle.stamps.specs.Stamps.{Txn};
ghost use Rattle.vertex_locks.specs.declared.answer.Look.TheVariants.{Taken};
ghost use Rattle.vertex_locks.specs.Rows.{answer_by_owner};
ghost use Rattle.edge_log.specs.Entries.{shown, sizes};
ghost use Rattle.edge_log.specs.Rooms.{KeepsLogs, KeepsOlds};
ghost use Rattle.core_rows.specs.Rows.{fresh_row, log_at, newest, is_there, lock_answer, taken_row, push_row, put_row, del_row, apply_row, undo_row};
ghost use Rattle.vertex_rows.specs.Blocks.{StaysApart, AreLogs, footprints_of};
ghost use Rattle.vertex_rows.specs.RowIn.{row_over, row_blocks, labelled_in, IsRowIn};
ghost use Rattle.vertex_rows.specs.Owned.{AreOwned, IsAllPast};

use crate::first_edge::{log_with_first, name_label};
use crate::one_log::{end_edge, put_edge};
use crate::touched::{commit_touched, undo_touched};
use edge_log::{EdgeLog, LogRefusal};
use graph_model::{NoMemory, Payload};
use label_index::LabelIndex;
use row_logs::RowLogs;
use std::alloc::Global;
use vertex_locks::{LockRow, Look};
use vertex_versions::Versions;

/// The row of a vertex whose logs lie in a room.
#[derive(Drop)]
pub struct VertexRow<L> {
    // What a read looks at stands first, beside each other: the number of each label's log, the logs, and the newest
    // version.
    pub(crate) index: LabelIndex,
    pub(crate) logs: RowLogs<L>,
    pub(crate) versions: Versions,
    lock: LockRow,
    // The numbers of the logs that the owner touched since it took the vertex.
    touched: Vec<u32>,
    // The limit on the sum of the sizes in each log.
    log_most: u64,
}

impl<L: EdgeLog> VertexRow<L> {
    /// The row of a vertex that was never there, in each of whose logs the sizes of the entries may come to
    /// `log_most`. It takes no memory, and stands in every room.
    pub fn new(alloc: Global, log_most: u64) -> VertexRow<L>
        requires { log_most ≤ list_most }
        ensures stands { (room : L.Room) → IsRowIn L.stands L.footprint L.content L.limit result room }
        ensures fresh { (room : L.Room) → row_over L.content result room ≡ fresh_row }
        ensures blocks { row_blocks L.footprint result ≡ [] }
        ensures limit { result.log_most ≡ log_most }
    {
        VertexRow {
            lock: LockRow {
                owner: None,
                committed: 0,
            },
            versions: Versions::new(alloc),
            index: LabelIndex::new(alloc),
            logs: RowLogs::new(alloc),
            touched: Vec::new(alloc),
            log_most,
        }
    }

    /// The row of these versions and logs, which nobody owns: the logs stand under the labels of the index, in its
    /// order, and the last commit that changed the row had the epoch `committed`. It takes no memory.
    pub fn from_parts(
        alloc: Global,
        committed: u64,
        versions: Versions,
        index: LabelIndex,
        logs: RowLogs<L>,
        log_most: u64,
    ) -> VertexRow<L>
        requires { log_most ≤ list_most }
        ensures stands { (room : L.Room) → length index ≡ length logs.items
            → AreLogs L.stands L.footprint L.limit log_most logs.items room
            → ((n : ℕ) (d : L) → n < length logs.items → IsAllPast committed (L.content (get_or logs.items n d) room))
            → IsRowIn L.stands L.footprint L.content L.limit result room }
        ensures row { (room : L.Room) → row_over L.content result room ≡ record {
          owner = None;
          committed = committed;
          versions = versions;
          logs = labelled_in L.content index logs.items room;
        } }
        ensures blocks { row_blocks L.footprint result ≡ footprints_of L.footprint logs.items }
        ensures limit { result.log_most ≡ log_most }
    {
        VertexRow {
            lock: LockRow {
                owner: None,
                committed,
            },
            versions,
            index,
            logs,
            touched: Vec::new(alloc),
            log_most,
        }
    }

    /// What a look of the transaction `tid`, whose snapshot is of the epoch `read`, answers. The row stays
    /// as it is. Time: constant.
    pub fn look(&self, tid: u64, read: u64) -> Look
        ensures { (room : L.Room) → result ≡ lock_answer (row_over L.content self.now room) tid read }
    {
        let mut lock = self.lock;
        vertex_locks::look(&mut lock, tid, read)
    }

    /// Who has the row, and the epoch of the last commit at it. Time: constant.
    pub fn lock(&self) -> LockRow
        ensures { result ≡ self.now.lock }
    {
        self.lock
    }

    /// Gives the row to the transaction, to which a look answered that it may take it. Time: constant.
    pub fn take(&mut self, tid: u64)
        requires taken { (read : ℕ) × (answer_by_owner self.old.lock.owner self.old.lock.committed tid read ≡ Taken) }
        ensures stands { (room : L.Room) → IsRowIn L.stands L.footprint L.content L.limit self.old room
            → IsRowIn L.stands L.footprint L.content L.limit self.new room }
        ensures taken { (room : L.Room) → row_over L.content self.new room
            ≡ taken_row tid (row_over L.content self.old room) }
        ensures blocks { row_blocks L.footprint self.new ≡ row_blocks L.footprint self.old }
        ensures limit { self.new.log_most ≡ self.old.log_most }
    {
        self.lock.owner = Some(tid);
    }

    /// Adds a version for the transaction, which owns the row from then on; no payload marks a drop. After
    /// NoMemory the row is as before. Time: amortized constant.
    pub fn push(&mut self, tid: u64, content: Option<Payload>) -> Result<(), NoMemory>
        requires taken { (read : ℕ) × (answer_by_owner self.old.lock.owner self.old.lock.committed tid read ≡ Taken) }
        ensures stands { (room : L.Room) → IsRowIn L.stands L.footprint L.content L.limit self.old room
            → IsRowIn L.stands L.footprint L.content L.limit self.new room }
        ensures pushed { (room : L.Room) → row_over L.content self.new room
            ≡ (if is_ok result then push_row tid content (row_over L.content self.old room)
            else row_over L.content self.old room) }
        ensures blocks { row_blocks L.footprint self.new ≡ row_blocks L.footprint self.old }
        ensures limit { self.new.log_most ≡ self.old.log_most }
    {
        self.versions.push(tid, content)?;
        self.take(tid);
        Ok(())
    }

    /// Gives the row free. Where the transaction's record changed the vertex, commits first what is private to
    /// the transaction, at this epoch, which becomes that of the row and of each log that holds anything of it.
    /// Where it did not, there is nothing of the transaction that an abort would not leave too.
    ///
    /// Time: one step for each log that the transaction touched, each version that it pushed, and each entry that
    /// it appended or ended.
    pub fn apply(&mut self, room: &mut L::Room, tid: u64, epoch: u64, changed: bool)
        requires stands { IsRowIn L.stands L.footprint L.content L.limit self.old room.old }
        requires owner { self.old.lock.owner ≡ Some tid }
        requires later { self.old.lock.committed ≤ epoch }
        requires told { changed ≡ false → undo_row tid (row_over L.content self.old room.old)
            ≡ apply_row tid epoch false (row_over L.content self.old room.old) }
        requires epoch { L.keeps_epoch epoch }
        ensures stands { IsRowIn L.stands L.footprint L.content L.limit self.new room.new }
        ensures applied { row_over L.content self.new room.new
            ≡ apply_row tid epoch changed (row_over L.content self.old room.old) }
        ensures blocks { (row_blocks L.footprint self.new ≡ row_blocks L.footprint self.old)
            × (L.blocks_out room.new ≡ L.blocks_out room.old) }
        ensures limit { self.new.log_most ≡ self.old.log_most }
        ensures keeps_logs { KeepsLogs L.stands L.footprint L.content L.spare
            (row_blocks L.footprint self.old) room.old room.new }
        ensures keeps_olds { KeepsOlds L.old_stands L.old_footprint L.old_content
            (row_blocks L.footprint self.old) room.old room.new }
    {
        if changed {
            self.commit(room, tid, epoch);
        } else {
            self.undo(room, tid);
        }
    }

    // Commits what is private to the transaction, at this epoch, which becomes the row's, and gives the row free.
    fn commit(&mut self, room: &mut L::Room, tid: u64, epoch: u64)
        requires stands { IsRowIn L.stands L.footprint L.content L.limit self.old room.old }
        requires owner { self.old.lock.owner ≡ Some tid }
        requires later { self.old.lock.committed ≤ epoch }
        requires epoch { L.keeps_epoch epoch }
        ensures stands { IsRowIn L.stands L.footprint L.content L.limit self.new room.new }
        ensures committed { row_over L.content self.new room.new
            ≡ apply_row tid epoch true (row_over L.content self.old room.old) }
        ensures blocks { (row_blocks L.footprint self.new ≡ row_blocks L.footprint self.old)
            × (L.blocks_out room.new ≡ L.blocks_out room.old) }
        ensures limit { self.new.log_most ≡ self.old.log_most }
        ensures keeps_logs { KeepsLogs L.stands L.footprint L.content L.spare
            (row_blocks L.footprint self.old) room.old room.new }
        ensures keeps_olds { KeepsOlds L.old_stands L.old_footprint L.old_content
            (row_blocks L.footprint self.old) room.old room.new }
    {
        self.versions.convert(tid, epoch);
        commit_touched(&mut self.logs, &mut self.touched, room, tid, epoch);
        self.lock = LockRow {
            owner: None,
            committed: epoch,
        };
    }

    /// Gives up what is private to the transaction, and gives the row free. Time: that of `apply`.
    pub fn undo(&mut self, room: &mut L::Room, tid: u64)
        requires stands { IsRowIn L.stands L.footprint L.content L.limit self.old room.old }
        requires owner { self.old.lock.owner ≡ Some tid }
        ensures stands { IsRowIn L.stands L.footprint L.content L.limit self.new room.new }
        ensures undone { row_over L.content self.new room.new ≡ undo_row tid (row_over L.content self.old room.old) }
        ensures blocks { (row_blocks L.footprint self.new ≡ row_blocks L.footprint self.old)
            × (L.blocks_out room.new ≡ L.blocks_out room.old) }
        ensures limit { self.new.log_most ≡ self.old.log_most }
        ensures keeps_logs { KeepsLogs L.stands L.footprint L.content L.spare
            (row_blocks L.footprint self.old) room.old room.new }
        ensures keeps_olds { KeepsOlds L.old_stands L.old_footprint L.old_content
            (row_blocks L.footprint self.old) room.old room.new }
    {
        self.versions.undo(tid);
        undo_touched(&mut self.logs, &mut self.touched, room, tid);
        self.lock.owner = None;
    }

    /// Sets an edge for the transaction, which owns the row from then on. Answers whether an edge to the same
    /// destination was ended. LogFull where the new entry passes the limit of the label's log, NoMemory where
    /// memory ran out: after either the row is as before. The vertex `v` is the row's.
    ///
    /// Time: that of `find` in the log of the label, or of `start` where the label has none, and one step for
    /// each byte.
    pub fn put(
        &mut self,
        alloc: Global,
        room: &mut L::Room,
        tid: u64,
        read: u64,
        v: u64,
        l: u16,
        d: u64,
        p: &Payload,
    ) -> Result<bool, LogRefusal>
        requires stands { IsRowIn L.stands L.footprint L.content L.limit self.old room.old }
        requires taken { lock_answer (row_over L.content self.old room.old) tid read ≡ Taken }
        requires snapshot { self.old.lock.committed ≤ read }
        requires number { L.keeps_number tid }
        ensures full { (result ≡ Err LogRefusal.LogFull)
            ↔ (self.old.log_most < sizes (log_at (row_over L.content self.old room.old).logs l).entries + edge_size p.now) }
        ensures stands { IsRowIn L.stands L.footprint L.content L.limit self.new room.new }
        ensures written { OnOk result (row_over L.content self.new room.new
            ≡ put_row tid read l d p.now (row_over L.content self.old room.old)) }
        ensures replaced { IfOk result (λ replaced. replaced ≡ is_some (pair_to d
            (shown (log_at (row_over L.content self.old room.old).logs l).entries read (Txn tid)))) }
        ensures unchanged { OnErr result (row_over L.content self.new room.new
            ≡ row_over L.content self.old room.old) }
        ensures apart { StaysApart (L.blocks_out room.old) (row_blocks L.footprint self.old)
            (row_blocks L.footprint self.new) }
        ensures limit { self.new.log_most ≡ self.old.log_most }
        ensures keeps_logs { KeepsLogs L.stands L.footprint L.content L.spare
            (row_blocks L.footprint self.old) room.old room.new }
        ensures keeps_olds { KeepsOlds L.old_stands L.old_footprint L.old_content
            (row_blocks L.footprint self.old) room.old room.new }
    {
        let Some(n) = self.index.row(l) else {
            return self.put_first(alloc, room, tid, v, l, d, p);
        };
        let log = self.logs.at_mut(n as usize);
        let replaced = put_edge(log, room, &mut self.touched, n, tid, read, d, p)?;
        self.lock.owner = Some(tid);
        Ok(replaced)
    }

    // Sets the first edge under a label, in a log that is given back where the label gets no number.
    // LogFull and NoMemory as of `put`.
    fn put_first(
        &mut self,
        alloc: Global,
        room: &mut L::Room,
        tid: u64,
        v: u64,
        l: u16,
        d: u64,
        p: &Payload,
    ) -> Result<bool, LogRefusal>
        requires stands { IsRowIn L.stands L.footprint L.content L.limit self.old room.old }
        requires owned { AreOwned L.content tid self.old.lock.committed self.old.touched.items self.old.logs.items room.old }
        requires number { L.keeps_number tid }
        requires unnamed { position (nat_eq l) self.old.index ≡ None }
        ensures full { (result ≡ Err LogRefusal.LogFull) ↔ (self.old.log_most < edge_size p.now) }
        ensures stands { IsRowIn L.stands L.footprint L.content L.limit self.new room.new }
        ensures written { OnOk result ((read : ℕ) → row_over L.content self.new room.new
            ≡ put_row tid read l d p.now (row_over L.content self.old room.old)) }
        ensures replaced { IfOk result (λ replaced. replaced ≡ false) }
        ensures unchanged { OnErr result (row_over L.content self.new room.new
            ≡ row_over L.content self.old room.old) }
        ensures apart { StaysApart (L.blocks_out room.old) (row_blocks L.footprint self.old)
            (row_blocks L.footprint self.new) }
        ensures limit { self.new.log_most ≡ self.old.log_most }
        ensures keeps_logs { KeepsLogs L.stands L.footprint L.content L.spare [] room.old room.new }
        ensures keeps_olds { KeepsOlds L.old_stands L.old_footprint L.old_content [] room.old room.new }
    {
        let log: L = log_with_first(alloc, room, tid, v, l, d, p, self.log_most)?;
        let Ok(n) = name_label(&mut self.index, &mut self.logs, &mut self.touched, l) else {
            L::release(room, log.retire());
            return Err(LogRefusal::NoMemory);
        };
        self.logs.push_reserved(log);
        self.touched.push_reserved(n);
        self.lock.owner = Some(tid);
        Ok(false)
    }

    /// Ends the edge that the transaction sees, which owns the row from then on. Answers whether there is
    /// one; where there is none, the row and the room are as before, and no memory is asked for. NoMemory where
    /// memory to note it ran out: the row is as before. Time: that of `find` in the log of the label.
    pub fn del(
        &mut self,
        room: &mut L::Room,
        tid: u64,
        read: u64,
        l: u16,
        d: u64,
    ) -> Result<bool, NoMemory>
        requires stands { IsRowIn L.stands L.footprint L.content L.limit self.old room.old }
        requires taken { lock_answer (row_over L.content self.old room.old) tid read ≡ Taken }
        requires snapshot { self.old.lock.committed ≤ read }
        requires number { L.keeps_number tid }
        ensures stands { IsRowIn L.stands L.footprint L.content L.limit self.new room.new }
        ensures ended { IfOk result (λ there. row_over L.content self.new room.new
            ≡ (if there then del_row tid read l d (row_over L.content self.old room.old)
            else row_over L.content self.old room.old)) }
        ensures there { IfOk result (λ there. there ≡ is_some (pair_to d
            (shown (log_at (row_over L.content self.old room.old).logs l).entries read (Txn tid)))) }
        ensures absent { IfOk result (λ there. there ≡ false → room.new ≡ room.old) }
        ensures no_memory { OnErr result (is_some (pair_to d
            (shown (log_at (row_over L.content self.old room.old).logs l).entries read (Txn tid))) ≡ true) }
        ensures unchanged { OnErr result (row_over L.content self.new room.new
            ≡ row_over L.content self.old room.old) }
        ensures apart { StaysApart (L.blocks_out room.old) (row_blocks L.footprint self.old)
            (row_blocks L.footprint self.new) }
        ensures limit { self.new.log_most ≡ self.old.log_most }
        ensures keeps_logs { KeepsLogs L.stands L.footprint L.content L.spare
            (row_blocks L.footprint self.old) room.old room.new }
        ensures keeps_olds { KeepsOlds L.old_stands L.old_footprint L.old_content
            (row_blocks L.footprint self.old) room.old room.new }
    {
        let Some(n) = self.index.row(l) else {
            return Ok(false);
        };
        let log = self.logs.at_mut(n as usize);
        let there = end_edge(log, room, &mut self.touched, n, tid, read, d)?;
        if there {
            self.lock.owner = Some(tid);
        }
        Ok(there)
    }

    /// Whether the transaction sees the vertex. Time: one step for each newer version.
    pub fn is_there(&self, tid: u64, read: u64) -> bool
        ensures { (room : L.Room) → result
            ≡ is_there (newest (row_over L.content self.now room).versions read (Txn tid)) }
    {
        self.versions.newest_at(read, tid).is_some()
    }

    /// Whether the log of a label shows the transaction an edge to `d`. Time: that of `find` in that log.
    pub fn has_edge(&self, room: &L::Room, tid: u64, read: u64, l: u16, d: u64) -> bool
        requires stands { IsRowIn L.stands L.footprint L.content L.limit self.now room.now }
        ensures { result ≡ is_some (pair_to d
            (shown (log_at (row_over L.content self.now room.now).logs l).entries read (Txn tid))) }
    {
        match self.index.row(l) {
            Some(n) => self.logs.at(n as usize).find(room, d, read, tid).is_some(),
            None => false,
        }
    }
}
