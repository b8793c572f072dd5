//! The values of the turns, and the board that is made of them.

ghost use Rattle.std.specs.Prelude.{◌≡◌, ◌+◌, ◌<◌, ◌≤◌, IfOk, IfErr, IsTrue, length, [], ◌∷◌};
ghost use Rattle.graph_model.specs.Records.{IsGood, list_most};
ghost use Rattle.core_states.specs.Openings.{lists_within};
ghost use Rattle.core_states.specs.LogParts.{Found, opened_part};
ghost use Rattle.turn_board.specs.Views.{fresh_view};
ghost use Rattle.turn_board.specs.Boards.{IsOf};
ghost use Rattle.turn_board.specs.Board.{turns, Knowing};
ghost use Rattle.turn_board.specs.Histories.{found_by};
ghost use Rattle.store_opening.specs.Opened.{IsOpened, AllOpened, AreShards, start_with};

use graph_model::{Base, NoMemory};
use std::alloc::{AllocFailed, Global};
use store_rows::ShardHome;
use store_turns::ClockHome;
use turn_board::{Home, Homes, Pass, Shards, ShowsLog, TurnBoard, Wide};

/// The value of a turn, in a box.
type Spot<W> = Home<Box<ShardHome>, Box<ClockHome>, Wide<W>>;

/// A board of a store, and its first pass.
pub struct Opened<W: ShowsLog> {
    pub turns: TurnBoard<Spot<W>>,
    pub pass: Pass<Spot<W>>,
}

// The shard that a value is.
fn shard_of<W>(value: Option<Spot<W>>) -> Box<ShardHome>
    requires { AreShards (value ∷ []) }
{
    match value {
        Some(Home::Shard(shard)) => shard,
        _ => unreachable!(),
    }
}

/// Lets shards go. Each of the values is one. It takes no memory.
pub fn let_go<W>(shards: Shards<Box<ShardHome>, Box<ClockHome>, Wide<W>>)
    requires { AreShards shards.values.items }
{
    let Shards { mut values } = shards;
    while let Some(value) = values.pop() {
        drop(shard_of(value));
    }
    values.destroy_empty();
}

// The shard of this number among so many in its box, as a run of the base starts with it.
fn opened_shard(
    alloc: Global,
    number: u32,
    count: u32,
    log_most: u64,
    base: &Base,
) -> Result<Box<ShardHome>, NoMemory>
    requires among { number < count }
    requires most { log_most ≤ list_most }
    requires good { IsGood base.now }
    requires lists { IsTrue (lists_within log_most base.now.graph) }
    ensures { IfOk result (λ shard. IsOpened base.now number count log_most shard.value) }
{
    let shard = ShardHome::opened(alloc, number, count, log_most, base)?;
    Ok(Box::new(alloc, shard)?)
}

// All shards, as a run of the base starts with them.
fn all_shards<W>(
    alloc: Global,
    base: &Base,
    count: u32,
    log_most: u64,
) -> Result<Shards<Box<ShardHome>, Box<ClockHome>, Wide<W>>, NoMemory>
    requires most { log_most ≤ list_most }
    requires good { IsGood base.now }
    requires lists { IsTrue (lists_within log_most base.now.graph) }
    ensures opened { IfOk result (λ shards. AllOpened base.now count log_most 0 shards.values.items) }
    ensures len { IfOk result (λ shards. length shards.values.items ≡ count) }
{
    let mut shards = Shards::new(alloc);
    for number in 0..count {
        let Ok(shard) = opened_shard(alloc, number, count, log_most, base) else {
            let_go(shards);
            return Err(NoMemory);
        };
        if let Err(back) = shards.push(shard) {
            drop(back);
            let_go(shards);
            return Err(NoMemory);
        }
    }
    Ok(shards)
}

// The value of the log's turn in its box. Where there is no memory it comes back.
fn boxed<W>(alloc: Global, log: W) -> Result<Wide<W>, W>
    ensures boxed { IfOk result (λ w. w.value.value ≡ log) }
    ensures unchanged { IfErr result (λ back. back ≡ log) }
{
    match Box::new(alloc, log) {
        Ok(log) => Ok(Wide::new(log)),
        Err(AllocFailed { value: log }) => Err(log),
    }
}

/// A board of so many shards, 1 to 64, that have loaded the base, over a log that shows what a run of the base starts
/// with, and its first pass. No list of the base is above `log_most`, which is 2^30 at most.
///
/// Where there is no memory the log comes back.
///
/// Time: for each shard logarithmic for each vertex of the base, and in all one step for each edge and each byte.
pub fn open_board<W: ShowsLog>(
    alloc: Global,
    base: &Base,
    count: u32,
    log_most: u64,
    log: W,
) -> Result<Opened<W>, W>
    requires some { (0 < count) × (count ≤ 64) }
    requires most { log_most ≤ list_most }
    requires good { IsGood base.now }
    requires lists { IsTrue (lists_within log_most base.now.graph) }
    requires log { (found : Found) × (W.log log ≡ opened_part base.now.epoch found) }
    requires in_time { (W.log log).moment ≤ W.moment log }
    ensures board { IfOk result (λ o. IsOf o.turns o.pass × (turns o.pass ≡ count + 2)) }
    ensures pass { IfOk result (λ o. Knowing o.pass
        (fresh_view (start_with base.now log_most (found_by (W.log log)) count) [] [] [])) }
    ensures unchanged { IfErr result (λ back. back ≡ log) }
{
    let Ok(shards) = all_shards(alloc, base, count, log_most) else {
        return Err(log);
    };
    let Ok(clock) = Box::new(alloc, ClockHome::opened(alloc, base)) else {
        let_go(shards);
        return Err(log);
    };
    let log = match boxed(alloc, log) {
        Ok(log) => log,
        Err(log) => {
            let_go(shards);
            drop(clock);
            return Err(log);
        }
    };
    match TurnBoard::make(alloc, base, log_most, Homes { shards, clock, log }) {
        Ok((turns, pass)) => Ok(Opened { turns, pass }),
        Err(Homes { shards, clock, log }) => {
            let_go(shards);
            drop(clock);
            Err(Box::into_inner(log.into_box()))
        }
    }
}
