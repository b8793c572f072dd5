//! The board of a store, opened over a base: each shard loads what is its own, and no transaction runs.
#![tactic(auto)]

mod opening;

pub use opening::{Opened, let_go, open_board};
