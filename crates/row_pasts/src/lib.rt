//! When a row stands for its vertex's past and for its owner's own changes, and that each event of a row leads
//! from such a row to such a row. Definitions and laws; no code.
#![tactic(auto)]

pub mod laws;
