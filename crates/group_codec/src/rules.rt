//! The rules of records, one function for each, over what a judge knows.

ghost use Rattle.std.specs.Prelude.{◌≡◌, ℕ, ◌==◌, not, ◌&&◌, ◌||◌, nat_lt, nat_le, IsTrue, IfOk, OnOk, List, [], ◌∷◌, length, if◌then◌else◌};
ghost use Rattle.std.specs.List.{list_any, list_all};
ghost use Rattle.std.specs.Ordering.{nat_cmp};
ghost use Rattle.std.specs.BTreeMap.{get};
ghost use Rattle.graph_model.specs.Change.{vertex_of, encoded_lens};
ghost use Rattle.graph_model.specs.Graph.{after, all_fit};
ghost use Rattle.graph_model.specs.Records.{made_vertices, has_destination, is_record, number_end, transaction_most};
ghost use Rattle.group_codec.specs.NumberSets.{was_met};
ghost use Rattle.group_codec.specs.Judging.{is_number, newest_of, are_new, is_apart, put_fits, puts_fit};

use crate::number_set::NumberSet;
use graph_model::{
    Change, Changes, Graph, GraphRefusal, LIST_MOST, NUMBER_END, NoMemory, Record, TRANSACTION_MOST,
};
use std::collections::BTreeMap;

/// Destinations are below this number.
const DESTINATION_END: u64 = 1 << 63;

/// Whether a record is within the limits of its numbers, its length and its destinations.
pub fn is_within_limits(committed: &Record) -> bool
    ensures { result ≡ is_record 0 1 committed.now }
{
    has_numbers(committed) && has_changes(committed.changes.as_slice())
}

fn has_numbers(committed: &Record) -> bool
    ensures { result ≡ (nat_le 1 committed.now.tid && (nat_lt committed.now.tid number_end &&
        (nat_lt committed.now.read committed.now.epoch && nat_lt committed.now.epoch number_end))) }
{
    (committed.tid >= 1 && committed.tid < NUMBER_END)
        && (committed.read < committed.epoch && committed.epoch < NUMBER_END)
}

fn has_changes(changes: &[Change]) -> bool
    ensures { result ≡ (nat_lt 0 (length changes.now) && (nat_le (encoded_lens changes.now) transaction_most &&
        list_all has_destination changes.now)) }
{
    !changes.is_empty() && is_short(changes) && have_destinations(changes)
}

fn have_destinations(changes: &[Change]) -> bool
    ensures { result ≡ list_all has_destination changes.now }
{
    changes.iter().all(|change| has_destination(change))
}

fn has_destination(change: &Change) -> bool
    ensures { result ≡ has_destination change.now }
{
    match change {
        Change::Put { d, .. } | Change::Del { d, .. } => *d < DESTINATION_END,
        _ => true,
    }
}

/// Whether the changes are encoded in at most as many bytes as those of a transaction may take.
pub fn is_short(changes: &[Change]) -> bool
    ensures { result ≡ nat_le (encoded_lens changes.now) transaction_most }
{
    let mut len = 0;
    for change in changes {
        len += change.encoded_len();
        if len > TRANSACTION_MOST {
            return false;
        }
    }
    true
}

/// Whether no record that is newer than the record's snapshot changed a vertex that it changes.
pub fn is_apart(newest: &BTreeMap<u64, u64>, committed: &Record) -> bool
    ensures { result ≡ is_apart (get nat_cmp newest.now) committed.now }
{
    let changes = committed.changes.as_slice();
    are_apart(newest, committed.read, changes)
}

fn are_apart(newest: &BTreeMap<u64, u64>, read: u64, changes: &[Change]) -> bool
    ensures { result ≡ list_all (λ c. nat_le (newest_of (get nat_cmp newest.now) (vertex_of c)) read) changes.now }
{
    for change in changes {
        if newest_of(newest, change.vertex()) > read {
            return false;
        }
    }
    true
}

fn newest_of(newest: &BTreeMap<u64, u64>, v: u64) -> u64
    ensures { result ≡ newest_of (get nat_cmp newest.now) v }
{
    match newest.get(&v) {
        Some(epoch) => *epoch,
        None => 0,
    }
}

/// Notes the epoch of a record at each vertex that it changes.
pub fn note_newest(
    newest: &mut BTreeMap<u64, u64>,
    epoch: u64,
    changes: &[Change],
) -> Result<(), NoMemory>
    ensures { OnOk result ((v : ℕ) → newest_of (get nat_cmp newest.new) v ≡
        (if list_any (λ c. vertex_of c == v) changes.now then epoch else newest_of (get nat_cmp newest.old) v)) }
{
    for change in changes {
        newest.insert(change.vertex(), epoch)?;
    }
    Ok(())
}

/// Notes a transaction's number, and tells whether it is new.
pub fn note_number(numbers: &mut NumberSet, tid: u64) -> Result<bool, NoMemory>
    ensures new { IfOk result (λ is_new. is_new ≡ not (was_met numbers.old tid)) }
    ensures noted { OnOk result ((t : ℕ) → was_met numbers.new t ≡
        ((tid == t) || was_met numbers.old t)) }
{
    numbers.insert(tid)
}

/// Notes the vertices that changes make, and tells whether they are vertex numbers that differ and were
/// not made before; where they are not, some may not be noted.
pub fn note_made(made: &mut NumberSet, changes: &[Change]) -> Result<bool, NoMemory>
    ensures new { IfOk result (λ is_new. is_new ≡ are_new (was_met made.old) (made_vertices changes.now)) }
    ensures noted { IfOk result (λ is_new. IsTrue is_new → (v : ℕ) →
        was_met made.new v ≡ (was_met made.old v || list_any (λ w. w == v)
        (made_vertices changes.now))) }
{
    for change in changes {
        if !note_change(made, change)? {
            return Ok(false);
        }
    }
    Ok(true)
}

fn note_change(made: &mut NumberSet, change: &Change) -> Result<bool, NoMemory>
    ensures new { IfOk result (λ is_new. is_new ≡
        are_new (was_met made.old) (made_vertices (change.now ∷ []))) }
    ensures noted { IfOk result (λ is_new. IsTrue is_new → (v : ℕ) →
        was_met made.new v ≡ (was_met made.old v || list_any (λ w. w == v) (made_vertices
        (change.now ∷ [])))) }
{
    match change {
        Change::New { v, .. } => note_vertex(made, *v),
        _ => Ok(true),
    }
}

fn note_vertex(made: &mut NumberSet, v: u64) -> Result<bool, NoMemory>
    ensures new { IfOk result (λ is_new. is_new ≡ (is_number v && not (was_met made.old v))) }
    ensures noted { IfOk result (λ is_new. IsTrue is_new → (w : ℕ) →
        was_met made.new w ≡ (was_met made.old w || (v == w))) }
{
    if v < 1 || v >= NUMBER_END {
        return Ok(false);
    }
    made.insert(v)
}

/// Applies changes, and tells whether each fits; where one does not, the graph is that before it.
pub fn apply_all(graph: &mut Graph, changes: &Changes) -> Result<bool, NoMemory>
    ensures fit { IfOk result (λ fit. fit ≡ all_fit changes.now graph.old) }
    ensures applied { IfOk result (λ fit. IsTrue fit → graph.new ≡ after changes.now graph.old) }
{
    match graph.apply_all(changes) {
        Ok(()) => Ok(true),
        Err(GraphRefusal::Unfit) => Ok(false),
        Err(GraphRefusal::NoMemory) => Err(NoMemory),
    }
}

/// Whether each list that a Put of the records set its edge in is within the limit.
pub fn puts_fit(graph: &Graph, records: &[Record]) -> bool
    ensures { result ≡ puts_fit graph.now records.now }
{
    for record in records {
        if !each_put_fits(graph, record.changes.as_slice()) {
            return false;
        }
    }
    true
}

fn each_put_fits(graph: &Graph, changes: &[Change]) -> bool
    ensures { result ≡ list_all (put_fits graph.now) changes.now }
{
    for change in changes {
        if !put_fits(graph, change) {
            return false;
        }
    }
    true
}

fn put_fits(graph: &Graph, change: &Change) -> bool
    ensures { result ≡ put_fits graph.now change.now }
{
    match change {
        Change::Put { v, l, .. } => graph.list_size(*v, *l) <= LIST_MOST,
        _ => true,
    }
}
