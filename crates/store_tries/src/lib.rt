//! Calls of a session that never wait.
//!
//! The problem: a thread that must not stand still wants to begin a transaction. The mechanism: the call tries the clock's
//! turn once, and where another thread has it, it says so and does nothing. The pass notes that it found the turn taken.
#![tactic(auto)]

mod beginning;
mod trying;

pub use beginning::try_begin;
pub use trying::try_by_clock;
