//! Workers of a store, which run the lines of a script, each in a thread with a pass and sessions of its own.
//!
//! The problem: the replies to a script are to be legal, however many workers run it and however their calls interleave.
//! The law on replies asks that each worker's pass has noted exactly the events of its sessions' opening, of its lines and
//! of its sessions' closing, and that each phase, a script with the workers that run it, was over before the next one
//! began. The mechanism: for each phase a pass is split off for each worker, the workers run side by side, and their passes
//! are joined into the one that they were split off, which then has the notes of all, and is the one pass that the next
//! phase begins with. The words: a crew is what a worker is given beside its pass; the room of a script is all the memory
//! that is taken for its run before the store is opened; the parent of a phase's passes is the one that they are split off.
#![tactic(auto)]

mod crew;
mod filling;
pub mod laws;
mod orders;
mod room;
mod script;
mod worker;

pub use room::ScriptRoom;
pub use script::run_script;
pub use worker::{Crew, Worker};
