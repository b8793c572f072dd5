//! The events of the core as code: one function for each event of `core_states`.
//!
//! The function of an event has as its clause the event's definition, on the parts as plain data. After want of
//! memory it has changed nothing.
#![tactic(auto)]

pub mod clock_events;
mod core_log;
pub mod log_events;
pub mod row_events;

pub use core_log::CoreLog;
