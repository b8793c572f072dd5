//! The changes of a session at a row.

ghost use Rattle.std.specs.Prelude.{◌≡◌, ◌<◌, IfOk, IfSome, IsTrue};
ghost use Rattle.graph_model.specs.Records.{number_end};
ghost use Rattle.graph_model.specs.declared.change.Change.{Change};
ghost use Rattle.graph_model.specs.Change.{vertex_of};
ghost use Rattle.shard_state.specs.Says.{Changes, refused};
ghost use Rattle.shard_state.specs.Shards.{row_at, limits_with, IsOf, IsShard, KeepsRows, MayChange, SameShard};
ghost use Rattle.tel_block.specs.Logs.{limit_of};
ghost use Rattle.tel_block.specs.Places.{content_of, StandsIn, footprint_of};
ghost use Rattle.store_rows.specs.Alters.{change_act, says_made, says_taken, AltersVertex, IsChangeAnswer, IsAnswerTo, AltersWork};

use crate::row_calls::working;
use crate::shard_home::ShardHome;
use block_pool::Pool;
use core_states::CoreAnswer;
use graph_model::{Change, NoMemory};
use shard_state::{Placed, Shard, ShardRefusal, Taken, Who};
use store_turns::{RowCall, RowEvent, Session, Work};
use tel_block::TelBlock;
use vertex_locks::Look;

/// Destinations are below this.
const DESTINATION_END: u64 = 1 << 63;

// The change again, which shares the bytes of its payload.
fn copy_of(change: &Change) -> Result<Change, NoMemory>
    ensures { IfOk result (λ copy. copy ≡ change.now) }
{
    Ok(match change {
        Change::New { v, p } => Change::New {
            v: *v,
            p: p.copy()?,
        },
        Change::Set { v, p } => Change::Set {
            v: *v,
            p: p.copy()?,
        },
        Change::Drop { v } => Change::Drop { v: *v },
        Change::Put { v, l, d, p } => Change::Put {
            v: *v,
            l: *l,
            d: *d,
            p: p.copy()?,
        },
        Change::Del { v, l, d } => Change::Del {
            v: *v,
            l: *l,
            d: *d,
        },
    })
}

// What the core answers where a shard refuses, and nothing where memory ran out.
fn refused(refusal: ShardRefusal) -> Option<CoreAnswer>
    ensures is { result ≡ refused refusal }
    ensures answer { IfSome result IsChangeAnswer }
    ensures any { (c : Change) → IfSome result (IsAnswerTo c) }
{
    match refusal {
        ShardRefusal::NoMemory => None,
        ShardRefusal::NoVertex => Some(CoreAnswer::NoVertex),
        ShardRefusal::TxnFull => Some(CoreAnswer::TxnFull),
        ShardRefusal::LogFull => Some(CoreAnswer::LogFull),
    }
}

// Makes the change in the shard, and answers as the core does. Nothing is done where memory runs out, where the change
// makes a vertex, or where its destination is none.
fn change_row(shard: &mut Shard<TelBlock, Pool>, who: &Who, change: &Change) -> Option<CoreAnswer>
    requires shard { IsShard StandsIn footprint_of content_of limit_of shard.old }
    requires own { IsOf (vertex_of change.now) shard.old }
    requires may { MayChange who.now (row_at content_of shard.old (vertex_of change.now)) }
    requires number { who.now.tid < number_end }
    ensures shard { IsShard StandsIn footprint_of content_of limit_of shard.new }
    ensures same { SameShard shard.old shard.new }
    ensures event { Changes (limits_with shard.old.log_most) who.now (change_act change.now) change.now
        (row_at content_of shard.old (vertex_of change.now)) result
        (row_at content_of shard.new (vertex_of change.now)) }
    ensures keeps { KeepsRows content_of (vertex_of change.now) shard.old shard.new }
    ensures answer { IfSome result IsChangeAnswer }
    ensures kind { IfSome result (IsAnswerTo change.now) }
    ensures vertex { IfSome result (λ _. AltersVertex change.now) }
{
    match change {
        Change::Put { v, l, d, p } => {
            if *d >= DESTINATION_END {
                return None;
            }
            match shard.put(who, *v, *l, *d, p) {
                Ok(Placed::Added) => Some(CoreAnswer::Added),
                Ok(Placed::Replaced) => Some(CoreAnswer::Replaced),
                Err(refusal) => refused(refusal),
            }
        }
        Change::Del { v, l, d } => match shard.del(who, *v, *l, *d) {
            Ok(Taken::Gone) => Some(CoreAnswer::Gone),
            Ok(Taken::Absent) => Some(CoreAnswer::Absent),
            Err(refusal) => refused(refusal),
        },
        Change::Set { v, p } => match shard.set(who, *v, p) {
            Ok(()) => Some(CoreAnswer::Done),
            Err(refusal) => refused(refusal),
        },
        Change::Drop { v } => match shard.drop_vertex(who, *v) {
            Ok(()) => Some(CoreAnswer::Done),
            Err(refusal) => refused(refusal),
        },
        Change::New { .. } => None,
    }
}

// Whether the change was made.
fn is_made(says: &CoreAnswer) -> bool
    ensures { result ≡ says_made says.now }
{
    matches!(
        says,
        CoreAnswer::Done | CoreAnswer::Added | CoreAnswer::Replaced | CoreAnswer::Gone
    )
}

// Whether the vertex was taken, and no change made.
fn is_taken(says: &CoreAnswer) -> bool
    ensures { result ≡ says_taken says.now }
{
    matches!(
        says,
        CoreAnswer::TxnFull | CoreAnswer::LogFull | CoreAnswer::Absent
    )
}

// Makes the change in the shard, and notes what came of it.
fn alter_row(
    shard: &mut Shard<TelBlock, Pool>,
    who: &Who,
    work: &mut Work,
    change: &Change,
) -> Option<CoreAnswer>
    requires shard { IsShard StandsIn footprint_of content_of limit_of shard.old }
    requires own { IsOf (vertex_of change.now) shard.old }
    requires may { MayChange who.now (row_at content_of shard.old (vertex_of change.now)) }
    requires number { who.now.tid < number_end }
    ensures shard { IsShard StandsIn footprint_of content_of limit_of shard.new }
    ensures same { SameShard shard.old shard.new }
    ensures event { Changes (limits_with shard.old.log_most) who.now (change_act change.now) change.now
        (row_at content_of shard.old (vertex_of change.now)) result
        (row_at content_of shard.new (vertex_of change.now)) }
    ensures keeps { KeepsRows content_of (vertex_of change.now) shard.old shard.new }
    ensures answer { IfSome result IsChangeAnswer }
    ensures kind { IfSome result (IsAnswerTo change.now) }
    ensures vertex { IfSome result (λ _. AltersVertex change.now) }
    ensures work { AltersWork change.now result work.old work.new }
{
    let v = change.vertex();
    work.touched.reserve().ok()?;
    work.note(copy_of(change).ok()?).ok()?;
    let Some(says) = change_row(shard, who, change) else {
        work.take_back();
        return None;
    };
    if is_made(&says) {
        work.touched.note(v, true);
        work.left = work.left.saturating_sub(change.encoded_len());
        return Some(says);
    }
    work.take_back();
    if is_taken(&says) {
        work.touched.note(v, false);
    }
    Some(says)
}

/// The transaction changes a vertex, or looks in vain at one that another transaction holds or has changed since its
/// snapshot. Nothing is done where no transaction works, where the change makes a vertex or has a destination of 2^63 or
/// more, or where memory runs out.
#[derive(Drop)]
pub struct Alter<'a> {
    pub change: &'a Change,
}

impl<'a> RowEvent for Alter<'a> {
    ghost use Rattle.graph_model.specs.Change.{vertex_of};
    ghost use Rattle.store_rows.specs.Alters.{alter_act};

    ghost acts = { λ c says. alter_act c.change.now says };

    ghost of = { λ c. vertex_of c.change.now };

    fn vertex(&self) -> u64 {
        self.change.vertex()
    }
}

impl<'a> RowCall<ShardHome> for Alter<'a> {
    ghost use Rattle.store_rows.specs.Alters.{AltersSession};

    ghost leaves = { λ c o s s'. AltersSession c.change.now o s s' };

    fn call(&self, home: &mut ShardHome, session: &mut Session) -> Option<CoreAnswer> {
        let v = self.change.vertex();
        let who = working(session)?;
        if home.shard.must_look(&who, v) {
            return match home.shard.look(&who, v) {
                Look::Held { owner } => Some(CoreAnswer::Held { owner }),
                Look::Conflict { committed } => Some(CoreAnswer::Conflict { committed }),
                Look::Taken => None,
            };
        }
        let work = session.work.as_mut()?;
        alter_row(&mut home.shard, &who, work, self.change)
    }
}
