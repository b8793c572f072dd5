//! What a shard keeps of one vertex: its lock, the versions of its payload, and a log of edges for each label,
//! where the logs lie in a room that the rows of many vertices share.
//!
//! A row knows which of its logs its owner touched. So a commit and an abort go over what the transaction did
//! at the vertex, however many labels and edges it has.
#![tactic(auto)]

mod first_edge;
pub mod laws;
mod one_log;
mod reads;
mod touched;
mod vertex_row;

pub use one_log::make_room;
pub use vertex_row::VertexRow;
