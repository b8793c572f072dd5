//! What the store means: changes, records, and the plain graph that they make.
//!
//! A graph is a finite map from vertex numbers to payloads with, for each vertex and label, a list of
//! edges, newest first. Every other crate says what it does by the definitions of this one: `apply` is
//! one change, `at` is the graph after the records up to an epoch, and `see` is what a query is answered
//! on a graph with a transaction's own changes.
#![tactic(auto)]

mod change;
mod edge_list;
mod graph;
pub mod laws;
mod limits;
mod list_of;
mod no_memory;
mod pairs;
mod payload;
mod query;
mod record;
mod slot_list;
mod slots;
mod vertex_entry;

pub use change::{Change, Changes};
pub use edge_list::{EdgeList, Edges};
pub use graph::{Base, Graph, GraphRefusal};
pub use limits::{GROUP_MOST, LIST_MOST, NUMBER_END, TRANSACTION_MOST};
pub use list_of::{Bytes, ListOf};
pub use no_memory::NoMemory;
pub use pairs::{Pair, Pairs};
pub use payload::Payload;
pub use query::{Answer, Labels, Query};
pub use record::{Moments, Outcome, Record, Records};
