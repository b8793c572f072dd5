//! The clock as a store keeps it: it numbers transactions, vertices and epochs, and knows which transactions run,
//! which records wait, what became of each, and which of the published ones are not done.
//!
//! Each call is one event of the core's clock: the clock after it is the one that the event leaves, and it answers
//! as the event does. A call takes a step for each doubling of the number of rows at most, and one for each record
//! of a group. Only the opening of a row and the beginning of a transaction take memory: with each transaction room
//! is made for all that its commit keeps.
#![tactic(auto)]

mod commits;
mod drawn;
mod epoch_part;
mod rising;

pub use drawn::{BeginRefusal, Drawn};
pub use epoch_part::EpochPart;
