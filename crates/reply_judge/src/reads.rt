//! What a read should be answered.

use graph_model::{Answer, Payload, Query};
use request_text::{Reply, Request};

/// What the request asks, where it reads.
pub fn query_of(request: &Request) -> Option<Query> {
    match request {
        Request::Get { v } => Some(Query::Vertex { v: *v }),
        Request::Edge { v, l, d } => Some(Query::Edge {
            v: *v,
            l: *l,
            d: *d,
        }),
        Request::Scan { v, l } => Some(Query::Scan { v: *v, l: *l }),
        Request::Labels { v } => Some(Query::Labels { v: *v }),
        _ => None,
    }
}

fn is_same(p: &Payload, q: &Payload) -> bool {
    p.as_slice() == q.as_slice()
}

fn are_same_pairs(pairs: &graph_model::Pairs, others: &graph_model::Pairs) -> bool {
    if pairs.len() != others.len() {
        return false;
    }
    for i in 0..pairs.len() {
        match (pairs.get(i), others.get(i)) {
            (Some(pair), Some(other)) => {
                if pair.d != other.d || !is_same(&pair.p, &other.p) {
                    return false;
                }
            }
            _ => return false,
        }
    }
    true
}

/// Whether the reply tells this answer to the query.
pub fn tells(query: &Query, answer: &Answer, reply: &Reply) -> bool {
    match (query, answer, reply) {
        (Query::Vertex { .. }, Answer::Value(p), Reply::Value { p: q }) => is_same(p, q),
        (Query::Vertex { .. }, Answer::NoVertex, Reply::Lacking) => true,
        (Query::Edge { .. }, Answer::Value(p), Reply::Edge { p: q }) => is_same(p, q),
        (Query::Edge { .. }, Answer::Absent, Reply::Absent) => true,
        (Query::Scan { .. }, Answer::Edges(pairs), Reply::Edges { pairs: others }) => {
            are_same_pairs(pairs, others)
        }
        (Query::Labels { .. }, Answer::Named(labels), Reply::Labels { labels: others }) => {
            labels.as_slice() == others.as_slice()
        }
        (Query::Vertex { .. }, _, _) => false,
        (_, Answer::NoVertex, Reply::NoVertex) => true,
        _ => false,
    }
}
