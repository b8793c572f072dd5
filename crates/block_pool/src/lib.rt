//! Blocks of bytes: a pool of chunks, each cut into blocks by halves.
#![tactic(auto)]

mod block;
mod cells;
mod chunk;
mod index;
mod index_cells;
pub mod laws;
mod pool;
mod transfer;

pub use block::Block;
pub use pool::Pool;
pub use transfer::Transfer;
