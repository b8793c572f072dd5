//! What is kept of one vertex.

ghost use Rattle.std.specs.Prelude.{◌≡◌, ◌+◌, ◌<◌, ◌↔◌, Ok, Err, Some, IfOk, OnOk, OnErr, is_some, is_ok, if◌then◌else◌, IsTrue, map};
ghost use Rattle.graph_model.specs.Change.{edge_size};
ghost use Rattle.graph_model.specs.Graph.{vertex_at, asked_vertex, edge_answer, pair_to, pairs_in, seen};
ghost use Rattle.graph_model.specs.Records.{list_most};
ghost use Rattle.stamps.specs.Stamps.{Txn};
ghost use Rattle.edge_log.specs.Entries.{shown, sizes};
ghost use Rattle.core_rows.specs.Rows.{fresh_row, log_at, newest, is_there, shown_lists, shown_vertex, lock_answer, taken_row, put_row, del_row, push_row, committed_log, committed_row, apply_row, undo_row, with_log, each_log, ended_log};
ghost use Rattle.core_rows.specs.LogMap.{logs_of};
ghost use Rattle.core_rows.specs.Openings.{opened_row};
ghost use Rattle.edge_log.specs.Contents.{with_appended, with_undone};
ghost use Rattle.graph_model.specs.Whole.{rise, is_graph};

use crate::opening::{logs_in, payload_in};
use crate::row_log::RowLog;
use edge_log::LogRefusal;
use graph_model::{Answer, Graph, Labels, NoMemory, Pairs, Payload, Query};
use std::alloc::Global;
use std::collections::BTreeMap;
use std::marker::Model;
use vertex_locks::{LockRow, Look};
use vertex_versions::Versions;

/// The row of a vertex, which contracts see as its owner, its committed epoch, its versions and its logs.
#[derive(Drop)]
pub struct CoreRow {
    lock: LockRow,
    versions: Versions,
    logs: BTreeMap<u16, RowLog>,
}

impl Model for CoreRow {
    ghost use Rattle.std.specs.Prelude.{IsTrue, map};
    ghost use Rattle.graph_model.specs.Whole.{rise, is_graph};
    ghost use Rattle.core_rows.specs.Rows.{Row};
    ghost use Rattle.core_rows.specs.LogMap.{logs_of};
    ghost use Rattle.core_rows.specs.Openings.{opened_row};

    ghost Value = { Row };

    ghost view = { λ a. record {
      owner = a.lock.owner;
      committed = a.lock.committed;
      versions = a.versions;
      logs = logs_of a.logs.entries;
    } };

    ghost invariant = { λ a. IsTrue (rise (map (λ x. x.label) (logs_of a.logs.entries))) };
}

impl CoreRow {
    /// The row of a vertex that was never there. It takes no memory.
    pub fn new(alloc: Global) -> CoreRow
        ensures { result ≡ fresh_row }
    {
        CoreRow {
            lock: LockRow {
                owner: None,
                committed: 0,
            },
            versions: Versions::new(alloc),
            logs: BTreeMap::new(alloc),
        }
    }

    /// The row of a vertex that a run starts with at this epoch; that of a vertex which was never there, where
    /// the graph has none. Time: one step for each edge and each byte of the vertex.
    pub fn opened(alloc: Global, graph: &Graph, v: u64, epoch: u64) -> Result<CoreRow, NoMemory>
        requires { IsTrue (is_graph graph.now) }
        ensures { IfOk result (λ row. row ≡ opened_row epoch (vertex_at v graph.now)) }
    {
        let Some(payload) = payload_in(graph, v)? else {
            return Ok(CoreRow::new(alloc));
        };
        let mut row = CoreRow::new(alloc);
        row.logs = logs_in(alloc, graph, v, epoch)?;
        row.push(0, Some(payload))?;
        row.versions.convert(0, epoch);
        row.lock = LockRow {
            owner: None,
            committed: epoch,
        };
        Ok(row)
    }

    /// What a look of the transaction `tid`, whose snapshot is of the epoch `read`, answers. The row stays
    /// as it is.
    pub fn look(&self, tid: u64, read: u64) -> Look
        ensures { result ≡ lock_answer self.now tid read }
    {
        let mut lock = self.lock;
        vertex_locks::look(&mut lock, tid, read)
    }

    /// Gives the row to the transaction.
    pub fn take(&mut self, tid: u64)
        ensures { self.new ≡ taken_row tid self.old }
    {
        self.lock.owner = Some(tid);
    }

    /// Sets an edge for the transaction, which owns the row from then on. Answers whether an edge to the
    /// same destination was ended. LogFull where the new entry passes the log's limit, NoMemory where memory
    /// ran out: after either the row is as before.
    ///
    /// Time: logarithmic, and one step for each newer entry and each byte.
    pub fn put(
        &mut self,
        alloc: Global,
        tid: u64,
        read: u64,
        l: u16,
        d: u64,
        p: &Payload,
    ) -> Result<bool, LogRefusal>
        ensures full { (result ≡ Err LogRefusal.LogFull)
            ↔ (list_most < sizes (log_at self.old.logs l).entries + edge_size p.now) }
        ensures written { OnOk result (self.new ≡ put_row tid read l d p.now self.old) }
        ensures replaced { IfOk result (λ replaced.
            replaced ≡ is_some (pair_to d (shown (log_at self.old.logs l).entries read (Txn tid)))) }
        ensures unchanged { OnErr result (self.new ≡ self.old) }
    {
        let replaced = put_in(alloc, &mut self.logs, tid, read, l, d, p)?;
        self.lock.owner = Some(tid);
        Ok(replaced)
    }

    /// Ends the edge that the transaction sees, which owns the row from then on. Answers whether there is
    /// one; where there is none, the row is as before. NoMemory where memory ran out: the row is as before.
    /// Time: logarithmic, and one step for each newer entry.
    pub fn del(&mut self, tid: u64, read: u64, l: u16, d: u64) -> Result<bool, NoMemory>
        ensures ended { IfOk result (λ there.
            self.new ≡ (if there then del_row tid read l d self.old else self.old)) }
        ensures there { IfOk result (λ there.
            there ≡ is_some (pair_to d (shown (log_at self.old.logs l).entries read (Txn tid)))) }
        ensures unchanged { OnErr result (self.new ≡ self.old) }
    {
        let there = end_in(&mut self.logs, tid, read, l, d)?;
        if there {
            self.lock.owner = Some(tid);
        }
        Ok(there)
    }

    /// Adds a version for the transaction, which owns the row from then on; no payload marks a drop. After
    /// NoMemory the row is as before. Time: amortized constant.
    pub fn push(&mut self, tid: u64, content: Option<Payload>) -> Result<(), NoMemory>
        ensures { self.new ≡ (if is_ok result then push_row tid content self.old else self.old) }
    {
        match self.versions.push(tid, content) {
            Ok(()) => {}
            Err(want) => return Err(want),
        }
        self.lock.owner = Some(tid);
        Ok(())
    }

    /// Gives the row free. Where the transaction's record changed the vertex, commits first what is private to
    /// the transaction, at this epoch, which becomes that of the row and of each log that holds anything of it.
    ///
    /// Time: one step for each label, each version, and each entry that the transaction appended or ended.
    pub fn apply(&mut self, tid: u64, epoch: u64, changed: bool)
        ensures { self.new ≡ apply_row tid epoch changed self.old }
    {
        self.lock.owner = None;
        if changed {
            self.commit(tid, epoch);
        }
    }

    // Commits what is private to the transaction, at this epoch, which becomes the row's.
    fn commit(&mut self, tid: u64, epoch: u64)
        ensures { self.new ≡ committed_row tid epoch self.old }
    {
        self.versions.convert(tid, epoch);
        commit_logs(&mut self.logs, tid, epoch);
        self.lock.committed = epoch;
    }

    /// Gives up what is private to the transaction, and gives the row free.
    /// Time: one step for each label, each version, and each entry that the transaction appended or ended.
    pub fn undo(&mut self, tid: u64)
        ensures { self.new ≡ undo_row tid self.old }
    {
        self.versions.undo(tid);
        undo_logs(&mut self.logs, tid);
        self.lock.owner = None;
    }

    /// Whether the transaction sees the vertex. Time: one step for each newer version.
    pub fn is_there(&self, tid: u64, read: u64) -> bool
        ensures { result ≡ is_there (newest self.now.versions read (Txn tid)) }
    {
        self.versions.newest_at(read, tid).is_some()
    }

    /// Whether the log of a label shows the transaction an edge to `d`.
    /// Time: logarithmic, and one step for each newer entry.
    pub fn has_edge(&self, tid: u64, read: u64, l: u16, d: u64) -> bool
        ensures { result ≡ is_some (pair_to d (shown (log_at self.now.logs l).entries read (Txn tid))) }
    {
        match self.logs.get(&l) {
            Some(log) => log.has_edge(tid, read, d),
            None => false,
        }
    }

    /// What the transaction sees of the vertex. Time: what it reads, entry for entry and byte for byte.
    pub fn read(&self, alloc: Global, tid: u64, read: u64, q: &Query) -> Result<Answer, NoMemory>
        ensures { IfOk result (λ answer.
            answer ≡ seen (shown_vertex (asked_vertex q.now) self.now read (Txn tid)) q.now) }
    {
        match self.versions.newest_at(read, tid) {
            Some(payload) => self.read_living(alloc, tid, read, q, payload),
            None => Ok(Answer::NoVertex),
        }
    }

    // The same where the vertex is there with this payload.
    fn read_living(
        &self,
        alloc: Global,
        tid: u64,
        read: u64,
        q: &Query,
        payload: &Payload,
    ) -> Result<Answer, NoMemory>
        ensures { IfOk result (λ answer.
            answer ≡ seen (Some (record {
              number = asked_vertex q.now;
              payload = payload.now;
              lists = shown_lists self.now.logs read (Txn tid);
            })) q.now) }
    {
        match q {
            Query::Vertex { .. } => Ok(Answer::Value(payload.copy()?)),
            Query::Edge { l, d, .. } => self.edge(alloc, tid, read, *l, *d),
            Query::Scan { l, .. } => self.scan(alloc, tid, read, *l),
            Query::Labels { .. } => self.labels(alloc, tid, read),
        }
    }

    fn edge(&self, alloc: Global, tid: u64, read: u64, l: u16, d: u64) -> Result<Answer, NoMemory>
        ensures { IfOk result (λ answer.
            answer ≡ edge_answer (pair_to d (pairs_in (shown_lists self.now.logs read (Txn tid)) l))) }
    {
        let Some(log) = self.logs.get(&l) else {
            return Ok(Answer::Absent);
        };
        match log.pair(alloc, tid, read, d)? {
            Some(pair) => Ok(Answer::Value(pair.p)),
            None => Ok(Answer::Absent),
        }
    }

    fn scan(&self, alloc: Global, tid: u64, read: u64, l: u16) -> Result<Answer, NoMemory>
        ensures { IfOk result (λ answer.
            answer ≡ Answer.Edges (pairs_in (shown_lists self.now.logs read (Txn tid)) l)) }
    {
        match self.logs.get(&l) {
            Some(log) => Ok(Answer::Edges(log.pairs(alloc, tid, read)?)),
            None => Ok(Answer::Edges(Pairs::new(alloc))),
        }
    }

    fn labels(&self, alloc: Global, tid: u64, read: u64) -> Result<Answer, NoMemory>
        ensures { IfOk result (λ answer.
            answer ≡ Answer.Named (map (λ y. y.label) (shown_lists self.now.logs read (Txn tid)))) }
    {
        let mut labels = Labels::new(alloc);
        for (label, log) in &self.logs {
            if log.shows_any(tid, read) {
                labels.push(*label)?;
            }
        }
        Ok(Answer::Named(labels))
    }
}

// Sets an edge in the log of its label, which is made where the label has none.
fn put_in(
    alloc: Global,
    logs: &mut BTreeMap<u16, RowLog>,
    tid: u64,
    read: u64,
    l: u16,
    d: u64,
    p: &Payload,
) -> Result<bool, LogRefusal>
    requires { IsTrue (rise (map (λ x. x.label) (logs_of logs.old.entries))) }
    ensures full { (result ≡ Err LogRefusal.LogFull)
        ↔ (list_most < sizes (log_at (logs_of logs.old.entries) l).entries + edge_size p.now) }
    ensures written { OnOk result (logs_of logs.new.entries
        ≡ with_log (record {
          label = l;
          log = with_appended tid d p.now
              (ended_log d read tid (log_at (logs_of logs.old.entries) l));
        }) (logs_of logs.old.entries)) }
    ensures replaced { IfOk result (λ replaced.
        replaced ≡ is_some (pair_to d (shown (log_at (logs_of logs.old.entries) l).entries read (Txn tid)))) }
    ensures unchanged { OnErr result (logs.new.entries ≡ logs.old.entries) }
{
    if let Some(log) = logs.get_mut(&l) {
        return log.put(tid, read, d, p);
    }
    let mut log = RowLog::new(alloc, p)?;
    let replaced = log.put(tid, read, d, p)?;
    match logs.insert(l, log) {
        Ok(_) => Ok(replaced),
        Err(_) => Err(LogRefusal::NoMemory),
    }
}

// Ends the edge in the log of its label, where it is there.
fn end_in(
    logs: &mut BTreeMap<u16, RowLog>,
    tid: u64,
    read: u64,
    l: u16,
    d: u64,
) -> Result<bool, NoMemory>
    requires { IsTrue (rise (map (λ x. x.label) (logs_of logs.old.entries))) }
    ensures ended { IfOk result (λ there. logs_of logs.new.entries
        ≡ (if there
        then with_log (record { label = l; log = ended_log d read tid (log_at (logs_of logs.old.entries) l) })
        (logs_of logs.old.entries)
        else logs_of logs.old.entries)) }
    ensures there { IfOk result (λ there.
        there ≡ is_some (pair_to d (shown (log_at (logs_of logs.old.entries) l).entries read (Txn tid)))) }
    ensures unchanged { OnErr result (logs.new.entries ≡ logs.old.entries) }
{
    match logs.get_mut(&l) {
        Some(log) => log.end(tid, read, d),
        None => Ok(false),
    }
}

// Commits what each log holds of the transaction.
fn commit_logs(logs: &mut BTreeMap<u16, RowLog>, tid: u64, epoch: u64)
    ensures { logs_of logs.new.entries ≡ each_log (committed_log tid epoch) (logs_of logs.old.entries) }
{
    logs.retain(|_label, log| {
        log.commit(tid, epoch);
        true
    });
}

// Undoes each log.
fn undo_logs(logs: &mut BTreeMap<u16, RowLog>, tid: u64)
    ensures { logs_of logs.new.entries ≡ each_log (with_undone tid) (logs_of logs.old.entries) }
{
    logs.retain(|_label, log| {
        log.undo(tid);
        true
    });
}
