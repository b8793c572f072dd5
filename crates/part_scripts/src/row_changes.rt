//! The changes of a vertex, as the core's events on its row.

ghost use Rattle.std.specs.Prelude.{◌≡◌, ◌<◌, ℕ, IfSome};
ghost use Rattle.graph_model.specs.Records.{number_end, list_most};
ghost use Rattle.core_states.specs.declared.event.Act.TheVariants as act;
ghost use Rattle.core_states.specs.Openings.{run_limits};
ghost use Rattle.shard_state.specs.Shards.{row_at, IsOf, IsShard, SameShard, KeepsRows, MayChange};
ghost use Rattle.shard_state.specs.Says.{Speaks, says_placed, says_taken, says_done};
ghost use Rattle.part_scripts.specs.Rows.{Did, Told, Fits};

use core_states::{CoreAnswer, Transaction};
use edge_log::EdgeLog;
use graph_model::{Change, NUMBER_END, NoMemory, Payload, TRANSACTION_MOST};
use shard_state::{Placed, Shard, ShardRefusal, Taken, Who};

/// Destinations are below it.
const DESTINATION_END: u64 = 1 << 63;

/// The transaction as a shard is told of it; none where it may change nothing.
pub fn who_of(x: &Transaction) -> Option<Who>
    ensures speaks { IfSome result (λ who. Speaks run_limits who x.now) }
    ensures number { IfSome result (λ who. who.tid < number_end) }
{
    let long = x.own.encoded_len();
    if !x.is_working() || long > TRANSACTION_MOST || x.tid >= NUMBER_END {
        return None;
    }
    Some(Who {
        tid: x.tid,
        read: x.read,
        left: TRANSACTION_MOST - long,
    })
}

// The same where it may change this vertex.
fn may_change<L: EdgeLog>(shard: &Shard<L, L::Room>, x: &Transaction, v: u64) -> Option<Who>
    requires shard { IsShard L.stands L.footprint L.content L.limit shard.now }
    requires own { IsOf v shard.now }
    requires fits { Fits x.now v (row_at L.content shard.now v) }
    ensures speaks { IfSome result (λ who. Speaks run_limits who x.now) }
    ensures number { IfSome result (λ who. who.tid < number_end) }
    ensures may { IfSome result (λ who. MayChange who (row_at L.content shard.now v)) }
{
    let who = who_of(x)?;
    if shard.must_look(&who, v) {
        return None;
    }
    Some(who)
}

/// Puts an edge, where the transaction may.
pub fn put<L: EdgeLog>(
    shard: &mut Shard<L, L::Room>,
    x: &Transaction,
    v: u64,
    l: u16,
    d: u64,
    p: &Payload,
) -> Result<Option<CoreAnswer>, NoMemory>
    requires shard { IsShard L.stands L.footprint L.content L.limit shard.old }
    requires most { shard.old.log_most ≡ list_most }
    requires own { IsOf v shard.old }
    requires fits { Fits x.now v (row_at L.content shard.old v) }
    requires numbers { (n : ℕ) → n < number_end → L.keeps_number n }
    ensures shard { IsShard L.stands L.footprint L.content L.limit shard.new }
    ensures same { SameShard shard.old shard.new }
    ensures did { Did (act.Put v l d p.now) x.now
        (row_at L.content shard.old v) result (row_at L.content shard.new v) }
    ensures keeps { KeepsRows L.content v shard.old shard.new }
{
    let Some(who) = may_change(shard, x, v) else {
        return Ok(None);
    };
    if d >= DESTINATION_END {
        return Ok(None);
    }
    placed(shard.put(&who, v, l, d, p))
}

/// Takes an edge out, where the transaction may.
pub fn del<L: EdgeLog>(
    shard: &mut Shard<L, L::Room>,
    x: &Transaction,
    v: u64,
    l: u16,
    d: u64,
) -> Result<Option<CoreAnswer>, NoMemory>
    requires shard { IsShard L.stands L.footprint L.content L.limit shard.old }
    requires most { shard.old.log_most ≡ list_most }
    requires own { IsOf v shard.old }
    requires fits { Fits x.now v (row_at L.content shard.old v) }
    requires numbers { (n : ℕ) → n < number_end → L.keeps_number n }
    ensures shard { IsShard L.stands L.footprint L.content L.limit shard.new }
    ensures same { SameShard shard.old shard.new }
    ensures did { Did (act.Del v l d) x.now
        (row_at L.content shard.old v) result (row_at L.content shard.new v) }
    ensures keeps { KeepsRows L.content v shard.old shard.new }
{
    let Some(who) = may_change(shard, x, v) else {
        return Ok(None);
    };
    taken(shard.del(&who, v, l, d))
}

/// Sets the payload, where the transaction may.
pub fn set<L: EdgeLog>(
    shard: &mut Shard<L, L::Room>,
    x: &Transaction,
    v: u64,
    p: &Payload,
) -> Result<Option<CoreAnswer>, NoMemory>
    requires shard { IsShard L.stands L.footprint L.content L.limit shard.old }
    requires most { shard.old.log_most ≡ list_most }
    requires own { IsOf v shard.old }
    requires fits { Fits x.now v (row_at L.content shard.old v) }
    ensures shard { IsShard L.stands L.footprint L.content L.limit shard.new }
    ensures same { SameShard shard.old shard.new }
    ensures did { Did (act.Set v p.now) x.now
        (row_at L.content shard.old v) result (row_at L.content shard.new v) }
    ensures keeps { KeepsRows L.content v shard.old shard.new }
{
    let Some(who) = may_change(shard, x, v) else {
        return Ok(None);
    };
    done(shard.set(&who, v, p))
}

/// Drops the vertex, where the transaction may.
pub fn drop_vertex<L: EdgeLog>(
    shard: &mut Shard<L, L::Room>,
    x: &Transaction,
    v: u64,
) -> Result<Option<CoreAnswer>, NoMemory>
    requires shard { IsShard L.stands L.footprint L.content L.limit shard.old }
    requires most { shard.old.log_most ≡ list_most }
    requires own { IsOf v shard.old }
    requires fits { Fits x.now v (row_at L.content shard.old v) }
    ensures shard { IsShard L.stands L.footprint L.content L.limit shard.new }
    ensures same { SameShard shard.old shard.new }
    ensures did { Did (act.Drop v) x.now
        (row_at L.content shard.old v) result (row_at L.content shard.new v) }
    ensures keeps { KeepsRows L.content v shard.old shard.new }
{
    let Some(who) = may_change(shard, x, v) else {
        return Ok(None);
    };
    done(shard.drop_vertex(&who, v))
}

/// Makes the vertex, where the transaction drew its number and did not use it.
pub fn make_vertex<L: EdgeLog + Drop>(
    shard: &mut Shard<L, L::Room>,
    x: &Transaction,
    v: u64,
    p: &Payload,
) -> Result<Option<CoreAnswer>, NoMemory>
    requires shard { IsShard L.stands L.footprint L.content L.limit shard.old }
    requires most { shard.old.log_most ≡ list_most }
    requires own { IsOf v shard.old }
    requires fits { Fits x.now v (row_at L.content shard.old v) }
    ensures shard { IsShard L.stands L.footprint L.content L.limit shard.new }
    ensures same { SameShard shard.old shard.new }
    ensures did { Did (act.New v p.now) x.now
        (row_at L.content shard.old v) result (row_at L.content shard.new v) }
    ensures keeps { KeepsRows L.content v shard.old shard.new }
{
    let change = Change::New { v, p: p.copy()? };
    let Some(who) = who_of(x) else {
        return Ok(None);
    };
    if !x.drawn.has_number(v) || who.left < change.encoded_len() {
        return Ok(None);
    }
    shard.new_vertex(&who, v, p)?;
    Ok(Some(CoreAnswer::Done))
}

// What a put is answered in the core.
fn placed(told: Result<Placed, ShardRefusal>) -> Result<Option<CoreAnswer>, NoMemory>
    ensures { Told result (says_placed told) }
{
    match told {
        Ok(Placed::Added) => Ok(Some(CoreAnswer::Added)),
        Ok(Placed::Replaced) => Ok(Some(CoreAnswer::Replaced)),
        Err(ShardRefusal::NoMemory) => Err(NoMemory),
        Err(ShardRefusal::NoVertex) => Ok(Some(CoreAnswer::NoVertex)),
        Err(ShardRefusal::TxnFull) => Ok(Some(CoreAnswer::TxnFull)),
        Err(ShardRefusal::LogFull) => Ok(Some(CoreAnswer::LogFull)),
    }
}

// What a del is answered in the core.
fn taken(told: Result<Taken, ShardRefusal>) -> Result<Option<CoreAnswer>, NoMemory>
    ensures { Told result (says_taken told) }
{
    match told {
        Ok(Taken::Gone) => Ok(Some(CoreAnswer::Gone)),
        Ok(Taken::Absent) => Ok(Some(CoreAnswer::Absent)),
        Err(ShardRefusal::NoMemory) => Err(NoMemory),
        Err(ShardRefusal::NoVertex) => Ok(Some(CoreAnswer::NoVertex)),
        Err(ShardRefusal::TxnFull) => Ok(Some(CoreAnswer::TxnFull)),
        Err(ShardRefusal::LogFull) => Ok(Some(CoreAnswer::LogFull)),
    }
}

// What a set or a drop is answered in the core.
fn done(told: Result<(), ShardRefusal>) -> Result<Option<CoreAnswer>, NoMemory>
    ensures { Told result (says_done told) }
{
    match told {
        Ok(()) => Ok(Some(CoreAnswer::Done)),
        Err(ShardRefusal::NoMemory) => Err(NoMemory),
        Err(ShardRefusal::NoVertex) => Ok(Some(CoreAnswer::NoVertex)),
        Err(ShardRefusal::TxnFull) => Ok(Some(CoreAnswer::TxnFull)),
        Err(ShardRefusal::LogFull) => Ok(Some(CoreAnswer::LogFull)),
    }
}
