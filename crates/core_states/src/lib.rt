//! The core of the store as a state machine: its state, what each event of each actor makes of it and answers, and
//! what is promised of every state. Definitions, and the types that they speak of.
//!
//! The state has four parts: the clock, which numbers transactions, vertices and epochs; the log part, which
//! knows what is on the log's disk; a row for each vertex, with its lock, its versions and its logs; and the
//! actors, each with the transaction that it runs. An event is one atomic action of one actor. It works on
//! that actor, and on the clock, on the log part, on both, or on one row.
//!
//! Read in specs/: `States`, then `ClockEvents`, `LogEvents` and `RowEvents`, then `Sound`. What holds of them,
//! whatever the order of the events, is said in `core_laws::laws`.
#![tactic(auto)]

mod actor;
mod clock;
pub mod copies;
mod disk_records;
mod event;
pub mod laws;
mod listed;
pub mod lists;
pub mod numbers;
mod own_changes;
mod transaction;

pub use actor::{Actor, LastLook, Learnt};
pub use clock::{Active, Clock, KeptOutcome};
pub use disk_records::DiskRecords;
pub use event::{Act, CoreAnswer, Event, Reach};
pub use listed::Listed;
pub use own_changes::OwnChanges;
pub use transaction::{End, NoteRoom, Receipt, Stage, Transaction};
