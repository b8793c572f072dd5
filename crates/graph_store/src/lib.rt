//! The store: opened over a base and its log, shared by the passes of its threads, and closed by the last one.
//!
//! The problem: a caller holds a base and a log, and wants to let threads work on them, each with a pass of its own.
//! The mechanism: `open` puts the base into shards and the log under its turn, on a board of turns that all threads
//! share; each thread has a pass, which is split from another and joined again. The last pass closes the store, and is
//! told of the one run of events that all passes did. The words: the seat of a pass is what its thread knows of the board;
//! it stands at the board while the pass holds no turn.
#![tactic(auto)]

mod base;
mod calls;
mod closing;
mod pass;
mod passes;
mod reads;
mod store;

pub use base::empty_base;
pub use closing::Closed;
pub use pass::{Pass, StorePass};
pub use shard_state::{Placed, Taken};
pub use store::{Settings, Store, Unopened};
pub use store_commits::CommitEnd;
pub use store_sessions::{Begun, Refusal};
pub use store_turns::Session;
