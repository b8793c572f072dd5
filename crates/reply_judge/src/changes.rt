//! What a change should be answered.

use graph_model::{Answer, Change, Query};
use request_text::{Reply, Request};

/// The vertex that the request changes, where it names one.
pub fn changed_vertex(request: &Request) -> Option<u64> {
    match request {
        Request::Set { v, .. } => Some(*v),
        Request::Drop { v } => Some(*v),
        Request::Put { v, .. } => Some(*v),
        Request::Del { v, .. } => Some(*v),
        _ => None,
    }
}

/// What the change depends on: the edge that it sets or takes out, or else its vertex.
pub fn asked_by(request: &Request) -> Option<Query> {
    match request {
        Request::Set { v, .. } => Some(Query::Vertex { v: *v }),
        Request::Drop { v } => Some(Query::Vertex { v: *v }),
        Request::Put { v, l, d, .. } => Some(Query::Edge {
            v: *v,
            l: *l,
            d: *d,
        }),
        Request::Del { v, l, d } => Some(Query::Edge {
            v: *v,
            l: *l,
            d: *d,
        }),
        _ => None,
    }
}

/// Whether the reply is right where the vertex or the edge is as the answer says.
pub fn is_right(request: &Request, answer: &Answer, reply: &Reply) -> bool {
    match (request, answer, reply) {
        (_, Answer::NoVertex, Reply::NoVertex) => true,
        (_, Answer::NoVertex, _) => false,
        (Request::Set { .. }, _, Reply::SetDone) => true,
        (Request::Drop { .. }, _, Reply::Dropped) => true,
        (Request::Put { .. }, Answer::Absent, Reply::Added) => true,
        (Request::Put { .. }, Answer::Value(_), Reply::Replaced) => true,
        (Request::Del { .. }, Answer::Absent, Reply::Absent) => true,
        (Request::Del { .. }, Answer::Value(_), Reply::Gone) => true,
        _ => false,
    }
}

/// The change that was made, where the reply says that one was; None where memory ran out.
pub fn made(request: &Request, reply: &Reply) -> Option<Option<Change>> {
    let change = match (request, reply) {
        (Request::Vertex { p }, Reply::Vertex { v }) => Change::New {
            v: *v,
            p: p.copy().ok()?,
        },
        (Request::Set { v, p }, Reply::SetDone) => Change::Set {
            v: *v,
            p: p.copy().ok()?,
        },
        (Request::Drop { v }, Reply::Dropped) => Change::Drop { v: *v },
        (Request::Put { v, l, d, p }, Reply::Added) => Change::Put {
            v: *v,
            l: *l,
            d: *d,
            p: p.copy().ok()?,
        },
        (Request::Put { v, l, d, p }, Reply::Replaced) => Change::Put {
            v: *v,
            l: *l,
            d: *d,
            p: p.copy().ok()?,
        },
        (Request::Del { v, l, d }, Reply::Gone) => Change::Del {
            v: *v,
            l: *l,
            d: *d,
        },
        _ => return Some(None),
    };
    Some(Some(change))
}
