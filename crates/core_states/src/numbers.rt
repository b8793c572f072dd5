//! Lists of numbers, of active transactions, of kept outcomes and of records.

ghost use Rattle.std.specs.Prelude.{◌≡◌};
ghost use Rattle.core_states.specs.Numbers.{has_number, all_in, least, least_tid, outcome_of, visible_of, has_record};

use crate::{Active, KeptOutcome, Listed};
use graph_model::{Outcome, Record};
use std::collections::LinkedList;

/// Whether the number is among these.
pub fn has_number(v: u64, numbers: &LinkedList<u64>) -> bool
    ensures { result ≡ has_number v numbers.now }
{
    for number in numbers {
        if *number == v {
            return true;
        }
    }
    false
}

/// Whether each of these numbers is among the others.
pub fn all_in(numbers: &LinkedList<u64>, others: &LinkedList<u64>) -> bool
    ensures { result ≡ all_in numbers.now others.now }
{
    for number in numbers {
        if !has_number(*number, others) {
            return false;
        }
    }
    true
}

/// The least of a number and the epochs.
pub fn least(mut n: u64, rows: &Listed<Active>) -> u64
    ensures { result ≡ least n rows.now }
{
    for row in rows.as_slice() {
        n = n.min(row.epoch);
    }
    n
}

/// The least of a number and the transaction numbers.
pub fn least_tid(mut n: u64, rows: &Listed<Active>) -> u64
    ensures { result ≡ least_tid n rows.now }
{
    for row in rows.as_slice() {
        n = n.min(row.tid);
    }
    n
}

/// The outcome that is kept for a transaction.
pub fn outcome_of(tid: u64, outcomes: &LinkedList<KeptOutcome>) -> Option<Outcome>
    ensures { result ≡ outcome_of tid outcomes.now }
{
    for kept in outcomes {
        if kept.tid == tid {
            return Some(kept.outcome);
        }
    }
    None
}

#[tactic(auto, using(crate::proofs::ListedLemmas::visible_of_low))]
/// The epochs up to which all records are done: below the least pending one.
pub fn visible_of(last: u64, pending: &Listed<Active>) -> u64
    ensures { result ≡ visible_of last pending.now }
{
    let mut visible = last;
    for row in pending.as_slice() {
        visible = visible.min(row.epoch.saturating_sub(1));
    }
    visible
}

/// Whether a record of the transaction is among these.
pub fn has_record(tid: u64, records: &LinkedList<Record>) -> bool
    ensures { result ≡ has_record tid records.now }
{
    for record in records {
        if record.tid == tid {
            return true;
        }
    }
    false
}
