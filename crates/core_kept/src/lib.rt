//! What every event of the core keeps: the facts that the induction over the events goes by, and the induction.
//! Definitions and proofs; no code.
//!
//! `Kept` (specs/Bounds.antt) is what the opening state has and every event hands on. It says more than a reader
//! is promised, and knows a ghost beside the state: where each number's record is (specs/Good.antt).
#![tactic(auto)]

pub mod laws;
