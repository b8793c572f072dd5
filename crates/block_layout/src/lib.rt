//! How the bytes of a block spell an edge log: definitions, where its parts begin, and the laws of reading and
//! writing.
//!
//! A block has 64 * 2^order bytes: a header of 36 bytes, from order 3 on a filter, payloads that grow up in the
//! order of appending, free bytes, and entries of 28 bytes that grow down from the end. Entry i, from 0 by
//! age, stands at 28 * (i + 1) bytes from the end. Where a payload stands follows from the lengths of the
//! entries, from the newest down.
#![tactic(auto)]

pub mod laws;
mod places;

pub use places::{FILTER_ORDER, HEADER, ROW, filter_len, flags_of, props_start, row_start};
