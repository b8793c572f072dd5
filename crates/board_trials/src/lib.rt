//! Threads that take turns on a small board: the board's contracts are met by callers, and the values come back. Tests that
//! stand on this crate run them.
#![tactic(auto)]

mod crowds;
mod opening;
mod spot;
mod trials;

pub use crowds::{counted, crowd, raise};
pub use opening::board_of;
pub use spot::{
    Board, Hand, Holder, Paper, Rows, Spot, Values, blank_paper, opened_clock, small_base,
};
pub use trials::{beside_the_log, both_open_a_row, busy_then_free, two_passes};
