//! A session makes a vertex.

ghost use Rattle.std.specs.Prelude.{◌≡◌};
ghost use Rattle.core_rows.specs.Rows.{fresh_row};
ghost use Rattle.shard_state.specs.Shards.{row_at, limits_with, IsOf, IsShard, KeepsRows, SameShard};
ghost use Rattle.tel_block.specs.Logs.{limit_of};
ghost use Rattle.tel_block.specs.Places.{content_of, StandsIn, footprint_of};
ghost use Rattle.store_rows.specs.Makes.{MakesRow, MakesWork};

use crate::row_calls::working;
use crate::shard_home::ShardHome;
use block_pool::Pool;
use core_states::CoreAnswer;
use graph_model::{Change, Payload};
use shard_state::{Shard, Who};
use store_turns::{RowCall, RowEvent, Session, Work};
use tel_block::TelBlock;

// Makes the vertex in the shard, and notes it. Nothing is done where the changes would be too long, or memory runs out.
fn make_row(
    shard: &mut Shard<TelBlock, Pool>,
    who: &Who,
    work: &mut Work,
    v: u64,
    p: &Payload,
) -> Option<CoreAnswer>
    requires shard { IsShard StandsIn footprint_of content_of limit_of shard.old }
    requires own { IsOf v shard.old }
    requires fresh { row_at content_of shard.old v ≡ fresh_row }
    requires left { who.now.left ≡ work.old.left }
    ensures shard { IsShard StandsIn footprint_of content_of limit_of shard.new }
    ensures same { SameShard shard.old shard.new }
    ensures event { MakesRow (limits_with shard.old.log_most) who.now v p.now (row_at content_of shard.old v) result
        (row_at content_of shard.new v) }
    ensures keeps { KeepsRows content_of v shard.old shard.new }
    ensures work { MakesWork v p.now result work.old work.new }
{
    let change = Change::New {
        v,
        p: p.copy().ok()?,
    };
    let size = change.encoded_len();
    if size > work.left {
        return None;
    }
    work.touched.reserve().ok()?;
    work.note(change).ok()?;
    if shard.new_vertex(who, v, p).is_err() {
        work.take_back();
        return None;
    }
    work.touched.note(v, true);
    work.left -= size;
    work.drawn = None;
    Some(CoreAnswer::Done)
}

/// The transaction makes the vertex of the number that it drew. Nothing is done where no transaction works, where it has
/// not drawn the number or has used it, where its changes would be too long, or where memory runs out.
#[derive(Drop)]
pub struct Make<'a> {
    pub v: u64,
    pub p: &'a Payload,
}

impl<'a> RowEvent for Make<'a> {
    ghost use Rattle.core_states.specs.declared.event.Act.TheVariants as act;

    ghost acts = { λ c _. act.New c.v c.p.now };

    ghost of = { λ c. c.v };

    fn vertex(&self) -> u64 {
        self.v
    }
}

impl<'a> RowCall<ShardHome> for Make<'a> {
    ghost use Rattle.store_turns.specs.Moves.{MakesNew};

    ghost leaves = { λ c o s s'. MakesNew c.v c.p.now o s s' };

    fn call(&self, home: &mut ShardHome, session: &mut Session) -> Option<CoreAnswer> {
        let who = working(session)?;
        let known = session.work.as_ref()?;
        let drawn = known.drawn?;
        if drawn != self.v {
            return None;
        }
        let work = session.work.as_mut()?;
        make_row(&mut home.shard, &who, work, self.v, self.p)
    }
}
