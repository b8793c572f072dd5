//! What a session of a store does under one turn: it takes the turn of the clock or of a shard, does one event of the core
//! there, and gives the turn back.
//!
//! An event is a type that says what it does to the value of its turn and to the session (`ClockCall`, `RowCall`), or that
//! it leaves the session as it is (`RowRead`). Here is proved once what each of them adds to what the pass knows.
#![tactic(auto)]

mod clock_home;
mod session;
mod steps;
mod touched;
mod work;
mod working;

pub use clock_home::ClockHome;
pub use session::{Session, Work};
pub use steps::{
    Called, ClockCall, RowCall, RowEvent, RowRead, call_clock, on_clock, on_shard, read_on_shard,
};
pub use touched::Touched;
