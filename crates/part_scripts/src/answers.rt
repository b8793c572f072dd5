//! Answers of the core that are compared.

use core_states::CoreAnswer;
use graph_model::{Answer, Pairs};

/// Whether two answers to an event are the same; those that no part gives are not.
pub fn same_answer(a: &CoreAnswer, b: &CoreAnswer) -> bool {
    match (a, b) {
        (CoreAnswer::Shown { answer }, CoreAnswer::Shown { answer: other }) => {
            same_shown(answer, other)
        }
        (CoreAnswer::Held { owner }, CoreAnswer::Held { owner: other }) => *owner == *other,
        (CoreAnswer::Conflict { committed }, CoreAnswer::Conflict { committed: other }) => {
            *committed == *other
        }
        (CoreAnswer::Begun { tid, read }, CoreAnswer::Begun { tid: t, read: r }) => {
            *tid == *t && *read == *r
        }
        (CoreAnswer::Number { v }, CoreAnswer::Number { v: other }) => *v == *other,
        (
            CoreAnswer::Learnt { horizon, oldest },
            CoreAnswer::Learnt {
                horizon: h,
                oldest: o,
            },
        ) => *horizon == *h && *oldest == *o,
        (CoreAnswer::Collected { members }, CoreAnswer::Collected { members: other }) => {
            *members == *other
        }
        (CoreAnswer::Published { epoch }, CoreAnswer::Published { epoch: other }) => {
            *epoch == *other
        }
        (CoreAnswer::Kept { outcome }, CoreAnswer::Kept { outcome: other }) => *outcome == *other,
        (CoreAnswer::Visible { yes }, CoreAnswer::Visible { yes: other }) => *yes == *other,
        (CoreAnswer::Spent, CoreAnswer::Spent) => true,
        (CoreAnswer::Done, CoreAnswer::Done) => true,
        (CoreAnswer::NoVertex, CoreAnswer::NoVertex) => true,
        (CoreAnswer::TxnFull, CoreAnswer::TxnFull) => true,
        (CoreAnswer::LogFull, CoreAnswer::LogFull) => true,
        (CoreAnswer::Added, CoreAnswer::Added) => true,
        (CoreAnswer::Replaced, CoreAnswer::Replaced) => true,
        (CoreAnswer::Gone, CoreAnswer::Gone) => true,
        (CoreAnswer::Absent, CoreAnswer::Absent) => true,
        _ => false,
    }
}

// Whether two reads show the same.
fn same_shown(a: &Answer, b: &Answer) -> bool {
    match (a, b) {
        (Answer::NoVertex, Answer::NoVertex) => true,
        (Answer::Absent, Answer::Absent) => true,
        (Answer::Value(p), Answer::Value(q)) => p.as_slice() == q.as_slice(),
        (Answer::Edges(pairs), Answer::Edges(others)) => same_edges(pairs, others),
        (Answer::Named(labels), Answer::Named(others)) => labels.as_slice() == others.as_slice(),
        _ => false,
    }
}

// Whether two lists have the same edges.
fn same_edges(a: &Pairs, b: &Pairs) -> bool {
    if a.len() != b.len() {
        return false;
    }
    for i in 0..a.len() {
        let (Some(pair), Some(other)) = (a.get(i), b.get(i)) else {
            return false;
        };
        if pair.d != other.d || pair.p.as_slice() != other.p.as_slice() {
            return false;
        }
    }
    true
}
