//! The acts of a transaction at a vertex of a shard, as the core's events on the row of the vertex.

ghost use Rattle.std.specs.Prelude.{◌≡◌, ◌<◌, ℕ};
ghost use Rattle.graph_model.specs.Graph.{asked_vertex};
ghost use Rattle.graph_model.specs.Records.{number_end, list_most};
ghost use Rattle.core_states.specs.declared.event.Act.TheVariants as act;
ghost use Rattle.core_states.specs.declared.event.Reach.TheVariants as reach;
ghost use Rattle.core_states.specs.States.{reach_of};
ghost use Rattle.shard_state.specs.Shards.{row_at, IsOf, IsShard, SameShard, KeepsRows};
ghost use Rattle.shard_state.specs.Says.{says_look};
ghost use Rattle.part_scripts.specs.Rows.{Did, Fits};

use crate::row_changes::{del, drop_vertex, make_vertex, put, set, who_of};
use core_states::{Act, CoreAnswer, Transaction};
use edge_log::EdgeLog;
use graph_model::{NUMBER_END, NoMemory, Query};
use shard_state::Shard;
use vertex_locks::Look;

/// Does an act of a transaction on a row of the shard, and tells what it answers; none where the transaction may not do
/// it, and then nothing is done.
pub fn act_on<L: EdgeLog + Drop>(
    shard: &mut Shard<L, L::Room>,
    x: &Transaction,
    v: u64,
    act: &Act,
) -> Result<Option<CoreAnswer>, NoMemory>
    requires shard { IsShard L.stands L.footprint L.content L.limit shard.old }
    requires most { shard.old.log_most ≡ list_most }
    requires own { IsOf v shard.old }
    requires reach { reach_of act.now ≡ reach.Row v }
    requires fits { Fits x.now v (row_at L.content shard.old v) }
    requires numbers { (n : ℕ) → n < number_end → L.keeps_number n }
    requires epochs { (n : ℕ) → 0 < n → n < number_end → L.keeps_epoch n }
    ensures shard { IsShard L.stands L.footprint L.content L.limit shard.new }
    ensures same { SameShard shard.old shard.new }
    ensures did { Did act.now x.now (row_at L.content shard.old v) result (row_at L.content shard.new v) }
    ensures keeps { KeepsRows L.content v shard.old shard.new }
{
    match act {
        Act::Look { .. } => look(shard, x, v),
        Act::Put { l, d, p, .. } => put(shard, x, v, *l, *d, p),
        Act::Del { l, d, .. } => del(shard, x, v, *l, *d),
        Act::Set { p, .. } => set(shard, x, v, p),
        Act::Drop { .. } => drop_vertex(shard, x, v),
        Act::New { p, .. } => make_vertex(shard, x, v, p),
        Act::Read { q } => read(shard, x, q),
        Act::Apply { .. } => Ok(apply(shard, x, v)),
        Act::Undo { .. } => Ok(undo(shard, x, v)),
        _ => Ok(None),
    }
}

// Looks at a vertex that the transaction sees and can't take.
fn look<L: EdgeLog>(
    shard: &Shard<L, L::Room>,
    x: &Transaction,
    v: u64,
) -> Result<Option<CoreAnswer>, NoMemory>
    requires shard { IsShard L.stands L.footprint L.content L.limit shard.now }
    requires most { shard.now.log_most ≡ list_most }
    requires own { IsOf v shard.now }
    ensures { Did (act.Look v) x.now (row_at L.content shard.now v) result (row_at L.content shard.now v) }
{
    let Some(who) = who_of(x) else {
        return Ok(None);
    };
    if !shard.must_look(&who, v) {
        return Ok(None);
    }
    Ok(Some(looked(shard.look(&who, v))))
}

// What a look is answered in the core.
fn looked(look: Look) -> CoreAnswer
    ensures { result ≡ says_look look }
{
    match look {
        Look::Taken => CoreAnswer::NotEnabled,
        Look::Held { owner } => CoreAnswer::Held { owner },
        Look::Conflict { committed } => CoreAnswer::Conflict { committed },
    }
}

// Reads, where the transaction may.
fn read<L: EdgeLog>(
    shard: &mut Shard<L, L::Room>,
    x: &Transaction,
    q: &Query,
) -> Result<Option<CoreAnswer>, NoMemory>
    requires shard { IsShard L.stands L.footprint L.content L.limit shard.old }
    requires most { shard.old.log_most ≡ list_most }
    requires own { IsOf (asked_vertex q.now) shard.old }
    ensures shard { IsShard L.stands L.footprint L.content L.limit shard.new }
    ensures same { SameShard shard.old shard.new }
    ensures did { Did (act.Read q.now) x.now (row_at L.content shard.old (asked_vertex q.now)) result
        (row_at L.content shard.new (asked_vertex q.now)) }
    ensures keeps { (v : ℕ) → row_at L.content shard.new v ≡ row_at L.content shard.old v }
{
    let Some(who) = who_of(x) else {
        return Ok(None);
    };
    let answer = shard.read(&who, q)?;
    Ok(Some(CoreAnswer::Shown { answer }))
}

// Commits what the transaction changed at a vertex, where its record has an epoch.
fn apply<L: EdgeLog>(shard: &mut Shard<L, L::Room>, x: &Transaction, v: u64) -> Option<CoreAnswer>
    requires shard { IsShard L.stands L.footprint L.content L.limit shard.old }
    requires most { shard.old.log_most ≡ list_most }
    requires own { IsOf v shard.old }
    requires fits { Fits x.now v (row_at L.content shard.old v) }
    requires epochs { (n : ℕ) → 0 < n → n < number_end → L.keeps_epoch n }
    ensures shard { IsShard L.stands L.footprint L.content L.limit shard.new }
    ensures same { SameShard shard.old shard.new }
    ensures did { Did (act.Apply v) x.now (row_at L.content shard.old v) (Ok result)
        (row_at L.content shard.new v) }
    ensures keeps { KeepsRows L.content v shard.old shard.new }
{
    let epoch = x.won_epoch()?;
    if !x.holds(v) || epoch < x.read || epoch == 0 || epoch >= NUMBER_END {
        return None;
    }
    shard.apply(v, x.tid, epoch, x.changes(v));
    Some(CoreAnswer::Done)
}

// Undoes what the transaction did at a vertex, where it has no record.
fn undo<L: EdgeLog>(shard: &mut Shard<L, L::Room>, x: &Transaction, v: u64) -> Option<CoreAnswer>
    requires shard { IsShard L.stands L.footprint L.content L.limit shard.old }
    requires most { shard.old.log_most ≡ list_most }
    requires own { IsOf v shard.old }
    requires fits { Fits x.now v (row_at L.content shard.old v) }
    ensures shard { IsShard L.stands L.footprint L.content L.limit shard.new }
    ensures same { SameShard shard.old shard.new }
    ensures did { Did (act.Undo v) x.now (row_at L.content shard.old v) (Ok result)
        (row_at L.content shard.new v) }
    ensures keeps { KeepsRows L.content v shard.old shard.new }
{
    if !x.is_loser() || !x.holds(v) {
        return None;
    }
    shard.undo(v, x.tid);
    Some(CoreAnswer::Done)
}
