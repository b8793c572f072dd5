//! The values of a small board: one shard with one row, the clock, and a log whose disk is a list of records.

use core_events::CoreLog;
use core_rows::CoreRow;
use core_states::Clock;
use turn_board::{Home, Pass, ShowsClock, ShowsLog, ShowsRows, TurnBoard};

/// The turn of the shard.
pub const SHARD: u32 = 0;

/// The turn of the clock, on a board of one shard.
pub const CLOCK: u32 = 1;

/// The turn of the log.
pub const LOG: u32 = 2;

/// The vertex whose row the shard has.
pub const FIRST: u64 = 1;

/// The shard: the row of its first vertex. The rows of all others are as the base has them.
#[derive(Drop)]
pub struct Rows {
    pub first: CoreRow,
}

impl ShowsRows for Rows {
    ghost use Rattle.leader_trial.specs.Shards.{first_row, first_place};

    ghost rows = { λ r. first_row r.first };

    ghost place = { λ _. first_place };
}

/// The clock.
#[derive(Drop)]
pub struct Hand {
    pub clock: Clock,
}

impl ShowsClock for Hand {
    ghost clock = { λ h. h.clock };
}

/// The log part, and the time on its disk's clock.
#[derive(Drop)]
pub struct Paper {
    pub log: CoreLog,
    pub time: u64,
}

impl ShowsLog for Paper {
    ghost use Rattle.core_events.specs.CoreLogs.{log_of};

    ghost log = { λ p. log_of p.log };

    ghost moment = { λ p. p.time };
}

pub type Spot = Home<Rows, Hand, Paper>;

pub type Board = TurnBoard<Spot>;

pub type Holder = Pass<Spot>;
