//! What a shard keeps: the rows of its vertices, with their logs in one room.
//!
//! Vertices are shared out by their numbers: the vertex `v` is of the shard `v mod shards`, and its row stands at the
//! place `v / shards`. Each call is an event of the core on the row of one vertex, and leaves all other rows as they
//! were. A shard is loaded from a base, whose rows it keeps from then on.
#![tactic(auto)]

mod changes;
pub mod laws;
mod loading;
mod row_changes;
mod shard;
mod who;

pub use shard::Shard;
pub use who::{Placed, ShardRefusal, Taken, Who};
