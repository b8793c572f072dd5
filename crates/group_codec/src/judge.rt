//! The judge of a log's records: whether each keeps the rules beside those before it.
//!
//! A rule that speaks of all earlier records is told by a map or a set, so that no record is held against
//! every other one.

ghost use Rattle.std.specs.Prelude.{◌≡◌, ◌==◌, [], ◌∷◌, ◌++◌, ◌+◌, IfOk, IsTrue, List, length};
ghost use Rattle.std.specs.List.{list_all};
ghost use Rattle.graph_model.specs.declared.record.Record.{Record};
ghost use Rattle.group_codec.specs.Spelling.{is_group};

use crate::number_set::NumberSet;
use crate::rules::{
    apply_all, is_apart, is_within_limits, note_made, note_newest, note_number, puts_fit,
};
use graph_model::{Graph, NoMemory, Record};
use std::alloc::Global;
use std::collections::BTreeMap;

/// What is known of the records so far.
#[derive(Drop)]
pub struct Judge {
    /// The graph after their changes.
    pub graph: Graph,
    /// The numbers of their transactions.
    pub numbers: NumberSet,
    /// The vertices that they made.
    pub made: NumberSet,
    /// For each vertex that they changed, the epoch of the newest record that did.
    pub newest: BTreeMap<u64, u64>,
}

impl Judge {
    ghost use Rattle.group_codec.specs.Judging.{Knows, KeepRules, none_later, Judged, KnowsLawful, KnowsLawfulIf};

    /// A judge of a log that has no record yet. It takes no memory.
    pub fn new(alloc: Global) -> Judge
        ensures { KnowsLawful result [] }
    {
        Judge {
            graph: Graph::empty(alloc),
            numbers: NumberSet::new(alloc),
            made: NumberSet::new(alloc),
            newest: BTreeMap::new(alloc),
        }
    }

    /// Takes the next group, and tells whether it keeps the rules behind the groups so far. Where it does
    /// not, the judge is of no more use.
    pub fn take_group(&mut self, epoch: u64, records: &[Record]) -> Result<bool, NoMemory>
        ensures { IfOk result (λ kept. (groups : List (List Record)) → KnowsLawful self.old groups →
            IsTrue (is_group epoch records.now) → epoch ≡ length groups + 1 →
            KnowsLawfulIf kept self.new (groups ++ records.now ∷ [])) }
    {
        if !self.take_records(epoch, records)? {
            return Ok(false);
        }
        Ok(puts_fit(&self.graph, records))
    }

    /// The graph after the records so far.
    pub fn into_graph(self) -> Graph
        ensures { result ≡ self.graph }
    {
        let Judge {
            graph,
            numbers: _numbers,
            made: _made,
            newest: _newest,
        } = self;
        graph
    }

    // Takes records of one epoch, and tells whether they keep the rules behind those so far.
    fn take_records(&mut self, epoch: u64, records: &[Record]) -> Result<bool, NoMemory>
        ensures { IfOk result (λ kept. (before : List Record) → Knows self.old before → KeepRules before →
            IsTrue (none_later epoch before) → IsTrue (list_all (λ r. r.epoch == epoch) records.now) →
            Judged kept self.new (before ++ records.now)) }
    {
        for record in records {
            if !self.take_record(record)? {
                return Ok(false);
            }
        }
        Ok(true)
    }

    // Takes a record, and tells whether it keeps the rules behind those so far.
    fn take_record(&mut self, committed: &Record) -> Result<bool, NoMemory>
        ensures { IfOk result (λ kept. (before : List Record) → Knows self.old before → KeepRules before →
            IsTrue (none_later committed.now.epoch before) →
            Judged kept self.new (before ++ committed.now ∷ [])) }
    {
        if !is_within_limits(committed) {
            return Ok(false);
        }
        if !is_apart(&self.newest, committed) {
            return Ok(false);
        }
        if !note_number(&mut self.numbers, committed.tid)? {
            return Ok(false);
        }
        let changes = committed.changes.as_slice();
        if !note_made(&mut self.made, changes)? {
            return Ok(false);
        }
        note_newest(&mut self.newest, committed.epoch, changes)?;
        let fit = apply_all(&mut self.graph, &committed.changes)?;
        Ok(fit)
    }
}
