//! A disk with a log on it, read whole: the base and the records that the log recovers to.
//!
//! `recover` reads all bytes of a disk, decodes them as a log, and makes of its records what a run starts
//! from. It writes nothing. The laws say that this is a good start, and that what goes on from there may
//! stand in the log behind the records.
#![tactic(auto)]

mod base;
pub mod laws;
mod reading;
mod recovered;
mod recovery;
mod refusal;

pub use recovered::Recovered;
pub use recovery::recover;
pub use refusal::RecoverRefusal;
