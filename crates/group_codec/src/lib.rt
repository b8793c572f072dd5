//! Groups of records as bytes, and the log that they stand in.
//!
//! A log is eight bytes, and then groups, each behind a gate byte. A gate that is 1 is open and a group
//! follows it; behind the last group stands a gate that is not open, and what follows that is not read.
//! `encode_group` is the one spelling of a group. `decode_log` gives the records of a log, or the first
//! group that is not of the grammar or breaks a rule of records, with its place.
#![tactic(auto)]

mod decoded;
mod encode;
mod group;
mod judge;
pub mod laws;
mod log;
mod number;
mod number_set;
mod read;
mod refusal;
mod rules;

pub use decoded::{CodecRefusal, Decoded};
pub use encode::{can_encode, change_len, encode_group, push_change, record_head};
pub use log::{decode_log, decode_with_graph};
