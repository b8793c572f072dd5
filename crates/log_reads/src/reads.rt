//! The reads of one log.

ghost use Rattle.std.specs.Prelude.{◌≡◌, ◌≤◌, ◌++◌, IfOk, OnOk, length, nat_lt, slice_get};
ghost use Rattle.std.specs.Option.{option_map};
ghost use Rattle.graph_model.specs.Graph.{pair_to};
ghost use Rattle.graph_model.specs.Payload.{payload_most};
ghost use Rattle.stamps.specs.Stamps.{Txn};
ghost use Rattle.edge_log.specs.Entries.{shown};
ghost use Rattle.edge_log.specs.Parts.{payload_bytes};

use edge_log::{EdgeLog, Part, Place};
use graph_model::{NoMemory, Pair, Pairs, Payload};
use std::alloc::Global;

/// The edges that the transaction sees, newest first. What the part held is lost; its bytes are those of one
/// payload, so that each payload which it can give is one.
/// Time: one step for each entry and each byte. Memory: room for about as many edges as the list has, where as many of its
/// entries are seen everywhere as in the first part that has an edge.
pub fn pairs<L: EdgeLog>(
    alloc: Global,
    log: &L,
    room: &L::Room,
    tid: u64,
    read: u64,
    part: &mut Part,
) -> Result<Pairs, NoMemory>
    requires stands { L.stands log.now room.now }
    requires bytes { part.old.bytes ≡ payload_most }
    ensures pairs { IfOk result (λ pairs. pairs ≡ shown (L.content log.now room.now).entries read (Txn tid)) }
    ensures bytes { part.new.bytes ≡ part.old.bytes }
{
    let mut pairs = Pairs::new(alloc);
    let mut place = log.cursor(true);
    while place.below > 0 {
        let next = log.part(room, place, read, tid, part);
        make_room(&mut pairs, expected(part.pairs(), place, next));
        push_part(alloc, part, &mut pairs)?;
        let Some(lower) = next else {
            break;
        };
        place = lower;
    }
    Ok(pairs)
}

// Makes room for so many edges before the first one, so that the list does not grow with them. It does where there is no
// memory for so many.
fn make_room(pairs: &mut Pairs, edges: usize)
    ensures { pairs.new ≡ pairs.old }
{
    if pairs.is_empty() {
        let _ = pairs.reserve(edges);
    }
}

// How many edges a list may have whose newest part, from this place on, has so many of them and goes on at the next place:
// as many of each further entry.
fn expected(edges: usize, place: Place, next: Option<Place>) -> usize {
    let Some(next) = next else {
        return edges;
    };
    let looked = place.below.saturating_sub(next.below).max(1) as usize;
    edges.saturating_add(edges.saturating_mul(next.below as usize) / looked)
}

// Appends copies of the edges of a part. After NoMemory some of them stand there.
fn push_part(alloc: Global, part: &Part, pairs: &mut Pairs) -> Result<(), NoMemory>
    requires { part.now.bytes ≡ payload_most }
    ensures { OnOk result (pairs.new ≡ pairs.old ++ part.now.pairs) }
{
    pairs.reserve(part.pairs())?;
    for i in 0..part.pairs() {
        let here = pair_at(alloc, part, i)?;
        if let Some(pair) = here {
            pairs.push(pair)?;
        }
    }
    Ok(())
}

// A copy of the edge at a place of a part, whose payloads are together no longer than one may be; none past the end.
fn pair_at(alloc: Global, part: &Part, i: usize) -> Result<Option<Pair>, NoMemory>
    requires { payload_bytes part.now.pairs ≤ payload_most }
    ensures { IfOk result (λ pair. pair ≡ slice_get part.now.pairs i) }
{
    let Some(d) = part.d(i) else {
        return Ok(None);
    };
    let Some(p) = part.p(i) else {
        return Ok(None);
    };
    let p = Payload::from_slice(alloc, p)?;
    Ok(Some(Pair { d, p }))
}

/// Whether the transaction sees an edge. What the part held is lost. It stops at the first part that has one.
/// Time: at most one step for each entry, and one for each byte of that part.
pub fn shows_any<L: EdgeLog>(log: &L, room: &L::Room, tid: u64, read: u64, part: &mut Part) -> bool
    requires { L.stands log.now room.now }
    ensures any { result ≡ nat_lt 0 (length (shown (L.content log.now room.now).entries read (Txn tid))) }
    ensures bytes { part.new.bytes ≡ part.old.bytes }
{
    let mut place = log.cursor(true);
    while place.below > 0 {
        let next = log.part(room, place, read, tid, part);
        if part.pairs() > 0 {
            return true;
        }
        let Some(lower) = next else {
            break;
        };
        place = lower;
    }
    false
}

/// The payload of the edge to `d` that the transaction sees; none where it sees no such edge.
/// Time: that of the log's `find` and `payload_at`.
pub fn payload_to<L: EdgeLog>(
    alloc: Global,
    log: &L,
    room: &L::Room,
    tid: u64,
    read: u64,
    d: u64,
) -> Result<Option<Payload>, NoMemory>
    requires { L.stands log.now room.now }
    ensures { IfOk result (λ payload. payload
        ≡ option_map (λ x. x.p) (pair_to d (shown (L.content log.now room.now).entries read (Txn tid)))) }
{
    match log.find(room, d, read, tid) {
        Some(place) => Ok(Some(log.payload_at(alloc, room, place)?)),
        None => Ok(None),
    }
}
