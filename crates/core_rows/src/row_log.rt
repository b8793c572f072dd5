//! The log of one label, as a row keeps it.

ghost use Rattle.std.specs.Prelude.{◌≡◌, ◌+◌, ◌<◌, ◌≤◌, ◌↔◌, Ok, Err, IfOk, OnOk, OnErr, is_some, false, length, nat_lt};
ghost use Rattle.graph_model.specs.Change.{edge_size};
ghost use Rattle.graph_model.specs.Graph.{pair_to};
ghost use Rattle.graph_model.specs.Records.{list_most};
ghost use Rattle.stamps.specs.Stamps.{Txn};
ghost use Rattle.edge_log.specs.Entries.{shown, sizes};
ghost use Rattle.edge_log.specs.Contents.{empty_content, with_appended, with_converted, with_undone};
ghost use Rattle.edge_log.specs.Plain.{content_of, limit_of, spare_of, MayEnd, IsPlain};
ghost use Rattle.core_rows.specs.Rows.{ended_log, committed_log};
ghost use Rattle.core_rows.specs.Openings.{opened_log};

use edge_log::{EdgeLog, LogRefusal, PlainLog};
use graph_model::{LIST_MOST, NoMemory, Pair, Pairs, Payload};
use std::alloc::Global;
use std::marker::Model;

/// The edges of one label, which contracts see as the content of a log.
#[derive(Drop)]
pub struct RowLog {
    log: PlainLog,
}

impl Model for RowLog {
    ghost use Rattle.std.specs.Prelude.{◌≡◌};
    ghost use Rattle.graph_model.specs.Records.{list_most};
    ghost use Rattle.edge_log.specs.Contents.{LogContent};
    ghost use Rattle.edge_log.specs.Plain.{content_of, limit_of, IsPlain};

    ghost Value = { LogContent };

    ghost view = { λ a. content_of a.log };

    ghost invariant = { λ a. IsPlain a.log × (limit_of a.log ≡ list_most) };
}

impl RowLog {
    /// A log without entries, with room for an edge with this payload, which is within the limit.
    pub fn new(alloc: Global, p: &Payload) -> Result<RowLog, NoMemory>
        ensures empty { IfOk result (λ log. log ≡ empty_content) }
        ensures within { edge_size p.now ≤ list_most }
    {
        match PlainLog::start(alloc, &mut (), 0, 0, 28 + p.len() as u64, LIST_MOST) {
            Ok(log) => Ok(RowLog { log }),
            Err(_) => Err(NoMemory),
        }
    }

    #[tactic(auto, using(crate::proofs::Shown::has_pair))]
    /// Whether the transaction sees an edge to `d`. Time: one step for each newer entry.
    pub fn has_edge(&self, tid: u64, read: u64, d: u64) -> bool
        ensures { result ≡ is_some (pair_to d (shown self.now.entries read (Txn tid))) }
    {
        self.log.find(&(), d, read, tid).is_some()
    }

    /// Sets an edge: ends the one to the same destination that the transaction sees, and appends the new
    /// one. Answers whether one was ended. LogFull where the new entry passes the limit, NoMemory where
    /// memory ran out: after either the log is as before. Time: one step for each newer entry, and each byte.
    pub fn put(&mut self, tid: u64, read: u64, d: u64, p: &Payload) -> Result<bool, LogRefusal>
        ensures full { (result ≡ Err LogRefusal.LogFull) ↔ (list_most < sizes self.old.entries + edge_size p.now) }
        ensures written { OnOk result (self.new ≡ with_appended tid d p.now (ended_log d read tid self.old)) }
        ensures replaced { IfOk result (λ replaced.
            replaced ≡ is_some (pair_to d (shown self.old.entries read (Txn tid)))) }
        ensures unchanged { OnErr result (self.new ≡ self.old) }
    {
        match self.log.prepare(&mut (), 28 + p.len() as u64) {
            Ok(_) => {}
            Err(refusal) => return Err(refusal),
        }
        let replaced = end_seen(&mut self.log, tid, read, d);
        self.log.append(&mut (), tid, d, p);
        Ok(replaced)
    }

    /// The log of edges that all stand from an epoch on. NoMemory too where they are above the limit, which
    /// no base allows. Time: one step for each edge and each byte.
    pub fn opened(alloc: Global, pairs: &Pairs, epoch: u64) -> Result<RowLog, NoMemory>
        ensures { IfOk result (λ log. log ≡ opened_log epoch pairs.now) }
    {
        let mut log = match PlainLog::start(alloc, &mut (), 0, 0, 0, LIST_MOST) {
            Ok(log) => RowLog { log },
            Err(_) => return Err(NoMemory),
        };
        let mut left = pairs.len();
        while left > 0 {
            left -= 1;
            let Some(pair) = pairs.get(left) else {
                break;
            };
            log.append(0, pair.d, &pair.p)?;
        }
        log.convert(0, epoch);
        Ok(log)
    }

    // Appends an edge that is private to the transaction.
    fn append(&mut self, tid: u64, d: u64, p: &Payload) -> Result<(), NoMemory>
        ensures { OnOk result (self.new ≡ with_appended tid d p.now self.old) }
    {
        match self.log.prepare(&mut (), 28 + p.len() as u64) {
            Ok(_) => {}
            Err(_) => return Err(NoMemory),
        }
        self.log.append(&mut (), tid, d, p);
        Ok(())
    }

    /// Whether the transaction sees an edge. Time: at most one step for each entry.
    pub fn shows_any(&self, tid: u64, read: u64) -> bool
        ensures { result ≡ nat_lt 0 (length (shown self.now.entries read (Txn tid))) }
    {
        self.log.shows_any(read, tid)
    }

    /// The edges that the transaction sees, newest first. Time: one step for each entry and each byte.
    pub fn pairs(&self, alloc: Global, tid: u64, read: u64) -> Result<Pairs, NoMemory>
        ensures { IfOk result (λ pairs. pairs ≡ shown self.now.entries read (Txn tid)) }
    {
        self.log.seen_pairs(alloc, read, tid)
    }

    /// The edge to `d` that the transaction sees. Time: one step for each newer entry, and each byte.
    pub fn pair(&self, alloc: Global, tid: u64, read: u64, d: u64) -> Result<Option<Pair>, NoMemory>
        ensures { IfOk result (λ pair. pair ≡ pair_to d (shown self.now.entries read (Txn tid))) }
    {
        self.log.seen_pair(alloc, d, read, tid)
    }

    /// Ends the edge to `d` that the transaction sees, and answers whether there is one. NoMemory where memory to
    /// note it ran out: the log is as before. Time: one step for each newer entry.
    pub fn end(&mut self, tid: u64, read: u64, d: u64) -> Result<bool, NoMemory>
        ensures ended { OnOk result (self.new ≡ ended_log d read tid self.old) }
        ensures there { IfOk result (λ there.
            there ≡ is_some (pair_to d (shown self.old.entries read (Txn tid)))) }
        ensures absent { IfOk result (λ there. there ≡ false → self.new ≡ self.old) }
        ensures unchanged { OnErr result (self.new ≡ self.old) }
    {
        match self.log.prepare(&mut (), 0) {
            Ok(_) => Ok(end_seen(&mut self.log, tid, read, d)),
            Err(_) => Err(NoMemory),
        }
    }

    /// Commits what is private to the transaction, at this epoch, if there is anything of it.
    /// Time: one step for each entry that the transaction appended or ended.
    pub fn commit(&mut self, tid: u64, epoch: u64)
        ensures { self.new ≡ committed_log tid epoch self.old }
    {
        if self.log.has_entry_of(&(), tid) {
            self.convert(tid, epoch);
        }
    }

    // Commits what is private to the transaction, at this epoch.
    fn convert(&mut self, tid: u64, epoch: u64)
        ensures { self.new ≡ with_converted tid epoch self.old }
    {
        self.log.convert(&mut (), tid, epoch);
    }

    /// Gives up what is private to the transaction.
    /// Time: one step for each entry that the transaction appended or ended.
    pub fn undo(&mut self, tid: u64)
        ensures { self.new ≡ with_undone tid self.old }
    {
        self.log.undo(&mut (), tid);
    }
}

// Ends the edge to `d` that the transaction sees, and answers whether there is one. Room for an
// entry stays.
#[tactic(auto, using(crate::proofs::Shown::has_pair))]
fn end_seen(log: &mut PlainLog, tid: u64, read: u64, d: u64) -> bool
    requires stands { IsPlain log.old }
    requires may_end { MayEnd log.old }
    ensures stands { IsPlain log.new }
    ensures ended { content_of log.new ≡ ended_log d read tid (content_of log.old) }
    ensures there { result ≡ is_some (pair_to d (shown (content_of log.old).entries read (Txn tid))) }
    ensures unchanged { result ≡ false → content_of log.new ≡ content_of log.old }
    ensures limit { limit_of log.new ≡ limit_of log.old }
    ensures room { spare_of log.new ≡ spare_of log.old }
{
    match log.find(&(), d, read, tid) {
        Some(place) => {
            log.end_entry(&mut (), place, tid);
            true
        }
        None => false,
    }
}
