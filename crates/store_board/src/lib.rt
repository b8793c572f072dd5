//! The board of a store, an event of a session under one of its turns, and hints for who waits without a turn.
#![tactic(auto)]

mod board;
mod hints;
mod noted;
mod pace;

pub use board::{Spot, StoreBoard, StorePass};
pub use hints::Hints;
