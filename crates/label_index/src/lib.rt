//! The labels of a vertex, and the row of each.
//!
//! A vertex has a row for each label under which it ever had an edge. Rows are numbered from 0 in the order in
//! which the labels came, and a label keeps its row.
#![tactic(auto)]

mod label_index;
mod label_list;

pub use label_index::LabelIndex;

#[cfg(test)]
mod tests;
