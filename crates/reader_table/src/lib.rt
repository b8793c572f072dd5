//! The rows of the transactions that run: which of them is active, and the least read epoch and the least
//! number of those, without a walk over the rows.
//!
//! The rows stand in a list by number. Above them stands a tree whose nodes tell what the rows below them
//! have least, so that a row that changes costs one step for each doubling of the number of rows, and the
//! least of all rows stands at the root. Only the opening of a row takes memory.
#![tactic(auto)]

mod index;
mod least;
mod nodes;
mod row;
mod table;

pub use row::Row;
pub use table::ReaderTable;
