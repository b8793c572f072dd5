//! One event through the core and through a shard.

ghost use Rattle.std.specs.Prelude.{◌≡◌, ◌≢◌, ◌<◌, ℕ, [], OnOk};
ghost use Rattle.graph_model.specs.Records.{IsGood, number_end, list_most};
ghost use Rattle.core_states.specs.Openings.{run_limits, opened_clock};
ghost use Rattle.core_states.specs.declared.event.Reach.TheVariants as reach;
ghost use Rattle.core_states.specs.States.{reach_of, first_name, after, answer_to};
ghost use Rattle.core_kept.specs.Bounds.{Kept};
ghost use Rattle.shard_state.specs.Shards.{IsOf, IsShard, SameShard};
ghost use Rattle.txn_core.specs.Cores.{state_of};
ghost use Rattle.part_scripts.specs.Rows.{AreAlike, IsFresh, IsHalf};

use crate::answers::same_answer;
use crate::clock_acts::act_on_clock;
use crate::group_acts::act_on_group;
use crate::row_acts::act_on;
use core_states::{Act, CoreAnswer, Event, Reach};
use edge_log::EdgeLog;
use epoch_clock::EpochPart;
use graph_model::{Base, NoMemory};
use shard_state::Shard;
use std::alloc::Global;
use txn_core::CoreState;

/// How an event went through the core and through the shard.
#[derive(Clone, Copy, Debug, PartialEq, Eq)]
pub enum Went {
    /// Its actor may not do it, and neither has done it.
    Left,
    /// It is on the log part: the core has done it alone.
    Alone,
    /// Both have answered the same.
    Same,
    /// They have answered differently.
    Apart,
}

/// The core that a run without records starts with: it has the rows of two shards in which no vertex was ever there.
pub fn new_core<L: EdgeLog>(
    alloc: Global,
    base: &Base,
    even: &Shard<L, L::Room>,
    odd: &Shard<L, L::Room>,
) -> CoreState
    requires good { IsGood base.now }
    requires empty { base.now.graph ≡ [] }
    requires even { IsFresh L.stands L.footprint L.content L.limit 0 even.now }
    requires odd { IsFresh L.stands L.footprint L.content L.limit 1 odd.now }
    ensures kept { Kept base.now run_limits (state_of base.now result) }
    ensures clock { result.clock ≡ opened_clock base.now }
    ensures even { IsHalf L.stands L.footprint L.content L.limit 0 (state_of base.now result) even.now }
    ensures odd { IsHalf L.stands L.footprint L.content L.limit 1 (state_of base.now result) odd.now }
{
    let _even = even;
    let _odd = odd;
    CoreState::new(alloc, base)
}

/// Does an event in the core, and one on the clock in its part, or one on a row in the shard of its vertex, which is the
/// even or the odd one. `rows` has the reader row of each actor.
/// After NoMemory they may differ.
pub fn do_event<L: EdgeLog + Drop>(
    alloc: Global,
    base: &Base,
    core: &mut CoreState,
    part: &mut EpochPart,
    rows: &mut [u32],
    even: &mut Shard<L, L::Room>,
    odd: &mut Shard<L, L::Room>,
    event: &Event,
) -> Result<Went, NoMemory>
    requires good { IsGood base.now }
    requires kept { Kept base.now run_limits (state_of base.now core.old) }
    requires clock { part.old.clock ≡ core.old.clock }
    requires even { IsHalf L.stands L.footprint L.content L.limit 0 (state_of base.now core.old) even.old }
    requires odd { IsHalf L.stands L.footprint L.content L.limit 1 (state_of base.now core.old) odd.old }
    requires numbers { (n : ℕ) → n < number_end → L.keeps_number n }
    requires epochs { (n : ℕ) → 0 < n → n < number_end → L.keeps_epoch n }
    ensures kept { Kept base.now run_limits (state_of base.now core.new) }
    ensures clock { OnOk result (part.new.clock ≡ core.new.clock) }
    ensures even { OnOk result
        (IsHalf L.stands L.footprint L.content L.limit 0 (state_of base.now core.new) even.new) }
    ensures odd { OnOk result
        (IsHalf L.stands L.footprint L.content L.limit 1 (state_of base.now core.new) odd.new) }
{
    match event.act.reach() {
        Reach::Row { v } => {
            if v % 2 == 0 {
                do_on_row(alloc, base, core, even, event, v)
            } else {
                do_on_row(alloc, base, core, odd, event, v)
            }
        }
        Reach::Clock => do_on_clock(alloc, base, core, part, rows, event),
        Reach::LogAndClock => do_on_group(alloc, base, core, part, event),
        Reach::Log => {
            do_alone(alloc, base, core, event)?;
            Ok(Went::Alone)
        }
    }
}

// Does an event on the clock in the core and in the clock's part. An actor that the core does not know yet asks for the
// horizon instead. After NoMemory they may differ.
fn do_on_clock(
    alloc: Global,
    base: &Base,
    core: &mut CoreState,
    part: &mut EpochPart,
    rows: &mut [u32],
    event: &Event,
) -> Result<Went, NoMemory>
    requires good { IsGood base.now }
    requires kept { Kept base.now run_limits (state_of base.now core.old) }
    requires clock { part.old.clock ≡ core.old.clock }
    requires reach { reach_of event.now.act ≡ reach.Clock }
    ensures kept { Kept base.now run_limits (state_of base.now core.new) }
    ensures clock { OnOk result (part.new.clock ≡ core.new.clock) }
    ensures rows { (w : ℕ) → (state_of base.now core.new).row w ≡ (state_of base.now core.old).row w }
{
    let Some(row) = rows.get_mut(event.actor as usize) else {
        return Ok(Went::Left);
    };
    let Some(actor) = core.actors.get(&event.actor) else {
        let ask = Event {
            actor: event.actor,
            act: Act::Horizon,
        };
        do_alone(alloc, base, core, &ask)?;
        return Ok(Went::Left);
    };
    let Some(told) = act_on_clock(alloc, part, actor, row, &event.act)? else {
        return Ok(Went::Left);
    };
    let answer = do_alone(alloc, base, core, event)?;
    Ok(compared(same_answer(&told, &answer)))
}

// Does an event on the log part and the clock in the core and in the clock's part. After NoMemory they may differ.
fn do_on_group(
    alloc: Global,
    base: &Base,
    core: &mut CoreState,
    part: &mut EpochPart,
    event: &Event,
) -> Result<Went, NoMemory>
    requires good { IsGood base.now }
    requires kept { Kept base.now run_limits (state_of base.now core.old) }
    requires clock { part.old.clock ≡ core.old.clock }
    requires reach { reach_of event.now.act ≡ reach.LogAndClock }
    ensures kept { Kept base.now run_limits (state_of base.now core.new) }
    ensures clock { OnOk result (part.new.clock ≡ core.new.clock) }
    ensures rows { (w : ℕ) → (state_of base.now core.new).row w ≡ (state_of base.now core.old).row w }
{
    let Some(actor) = core.actors.get(&event.actor) else {
        return Ok(Went::Left);
    };
    let Some(told) = act_on_group(alloc, part, &core.log, event.actor, actor, &event.act)? else {
        return Ok(Went::Left);
    };
    let answer = do_alone(alloc, base, core, event)?;
    Ok(compared(same_answer(&told, &answer)))
}

// Does an event on a row of the shard in the core and in the shard. After NoMemory they may differ.
fn do_on_row<L: EdgeLog + Drop>(
    alloc: Global,
    base: &Base,
    core: &mut CoreState,
    shard: &mut Shard<L, L::Room>,
    event: &Event,
    v: u64,
) -> Result<Went, NoMemory>
    requires good { IsGood base.now }
    requires kept { Kept base.now run_limits (state_of base.now core.old) }
    requires shard { IsShard L.stands L.footprint L.content L.limit shard.old }
    requires most { shard.old.log_most ≡ list_most }
    requires own { IsOf v shard.old }
    requires reach { reach_of event.now.act ≡ reach.Row v }
    requires alike { AreAlike L.content (state_of base.now core.old) shard.old }
    requires numbers { (n : ℕ) → n < number_end → L.keeps_number n }
    requires epochs { (n : ℕ) → 0 < n → n < number_end → L.keeps_epoch n }
    ensures kept { Kept base.now run_limits (state_of base.now core.new) }
    ensures shard { IsShard L.stands L.footprint L.content L.limit shard.new }
    ensures same { SameShard shard.old shard.new }
    ensures alike { OnOk result (AreAlike L.content (state_of base.now core.new) shard.new) }
    ensures clock { OnOk result (core.new.clock ≡ core.old.clock) }
    ensures others { OnOk result ((w : ℕ) → w ≢ v
        → (state_of base.now core.new).row w ≡ (state_of base.now core.old).row w) }
{
    let Some(actor) = core.actors.get(&event.actor) else {
        return Ok(Went::Left);
    };
    let Some(x) = &actor.txn else {
        return Ok(Went::Left);
    };
    let Some(told) = act_on(shard, x, v, &event.act)? else {
        return Ok(Went::Left);
    };
    let answer = do_alone(alloc, base, core, event)?;
    Ok(compared(same_answer(&told, &answer)))
}

// How an event went that both have answered.
fn compared(same: bool) -> Went {
    if same { Went::Same } else { Went::Apart }
}

// Does an event in the core alone. After NoMemory it stands as it was.
fn do_alone(
    alloc: Global,
    base: &Base,
    core: &mut CoreState,
    event: &Event,
) -> Result<CoreAnswer, NoMemory>
    requires good { IsGood base.now }
    requires kept { Kept base.now run_limits (state_of base.now core.old) }
    ensures kept { Kept base.now run_limits (state_of base.now core.new) }
    ensures state { OnOk result (state_of base.now core.new
        ≡ after run_limits (state_of base.now core.old) (first_name event.now.actor) event.now.act) }
    ensures rows { ((w : ℕ) → reach_of event.now.act ≢ reach.Row w
        → (state_of base.now core.new).row w ≡ (state_of base.now core.old).row w) }
{
    core.step(alloc, base, event)
}
