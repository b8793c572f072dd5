//! The values of a board by name, as a caller hands them in and gets them back.

ghost use Rattle.std.specs.Prelude.{◌≡◌, ◌++◌, ◌∷◌, ◌+◌, [], OnOk, OnErr, IfOk, IfErr, Some, length, vec_capacity, ◌<◌, ◌≤◌};
ghost use Rattle.turn_board.specs.declared.home.Home.TheVariants as home;
ghost use Rattle.turn_board.specs.Laid.{laid, HasEnds};

use crate::home::Home;
use crate::slots::append;
use std::alloc::{AllocFailed, Global};

/// The values of the shards' turns, in the order of the shards. Their list has room for those of the other turns too,
/// so that neither `TurnBoard::close` nor a refusal takes memory.
#[derive(Drop)]
pub struct Shards<X, E, W> {
    pub values: Vec<Option<Home<X, E, W>>>,
}

/// The values of a board: those of the shards, the clock's, and the log's.
#[derive(Drop)]
pub struct Homes<X, E, W> {
    pub shards: Shards<X, E, W>,
    pub clock: E,
    pub log: W,
}

impl<X, E, W> Shards<X, E, W> {
    /// No shard. It takes no memory.
    pub fn new(alloc: Global) -> Shards<X, E, W>
        ensures { result.values.items ≡ [] }
    {
        Shards {
            values: Vec::new(alloc),
        }
    }

    /// Adds the value of the next shard. Where there is no memory it comes back, and the others stay.
    pub fn push(&mut self, shard: X) -> Result<(), X>
        ensures added { OnOk result (self.new.values.items ≡ self.old.values.items ++ Some (home.Shard shard) ∷ []) }
        ensures unchanged { OnErr result (self.new.values.items ≡ self.old.values.items) }
        ensures back { IfErr result (λ refused. refused ≡ shard) }
    {
        match self.values.push(Some(Home::Shard(shard))) {
            Ok(()) => Ok(()),
            Err(
                AllocFailed {
                    value: Some(Home::Shard(shard)),
                },
            ) => Err(shard),
            Err(_) => unreachable!(),
        }
    }

    /// How many shards there are.
    pub fn len(&self) -> usize
        ensures { result ≡ length self.now.values.items }
    {
        self.values.len()
    }
}

impl<X, E, W> Homes<X, E, W> {
    // The values in the order of the turns. Where there is no memory they come back.
    pub(crate) fn into_values(self) -> Result<Vec<Option<Home<X, E, W>>>, Homes<X, E, W>>
        ensures laid { IfOk result (λ values. values.items ≡ laid self) }
        ensures unchanged { IfErr result (λ refused. laid refused ≡ laid self) }
    {
        let Homes { shards, clock, log } = self;
        let Shards { mut values } = shards;
        if values.reserve(2).is_err() {
            let shards = Shards { values };
            return Err(Homes { shards, clock, log });
        }
        append(&mut values, Some(Home::Clock(clock)));
        append(&mut values, Some(Home::Log(log)));
        Ok(values)
    }

    // The values by name, where they stand in the order of the turns. It takes no memory.
    pub(crate) fn of_values(values: Vec<Option<Home<X, E, W>>>) -> Homes<X, E, W>
        requires { HasEnds values.items }
        ensures { laid result ≡ values.items }
    {
        let mut values = values;
        let log = match values.pop() {
            Some(Some(Home::Log(log))) => log,
            _ => unreachable!(),
        };
        let clock = match values.pop() {
            Some(Some(Home::Clock(clock))) => clock,
            _ => unreachable!(),
        };
        let shards = Shards { values };
        Homes { shards, clock, log }
    }
}
