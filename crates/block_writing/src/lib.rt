//! The block of bytes of an edge log, as it is written: begun, appended to, changed at the end of a transaction, and
//! copied into another block.
//!
//! Each call takes the bytes of a block and what a log knows beside them: the block's order, and how many entries and
//! payload bytes it has. What a call says holds of all entries that the bytes spell, so a log need not keep them.
#![tactic(auto)]

mod append;
mod begin;
mod changes;
mod copy;
mod fill;
mod keep;
mod rows;

pub use append::append_entry;
pub use begin::begin_block;
pub use changes::{commit_header, convert, end_entry, undo};
pub use copy::copy_block;
pub use fill::Fill;
pub use keep::{begin_kept, copy_kept, kept_size};
