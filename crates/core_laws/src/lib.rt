//! The laws of the core: what is promised of every kept state, of every event, and of an event on the parts that
//! its actor holds. No code.
#![tactic(auto)]

pub mod laws;
