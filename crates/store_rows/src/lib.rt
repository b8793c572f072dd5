//! The value of a shard's turn, and the events of a session on a row of it.
#![tactic(auto)]

mod alters;
mod makes;
mod row_calls;
mod shard_home;

pub use alters::Alter;
pub use makes::Make;
pub use row_calls::{Apply, Read, Undo};
pub use shard_home::ShardHome;
