//! An index of the entries in a block: made from the block, shortened as entries are taken back, and asked for an entry.
#![tactic(auto)]

mod entry_index;
mod finds;
mod notes;
mod takes;

pub use entry_index::EntryIndex;
