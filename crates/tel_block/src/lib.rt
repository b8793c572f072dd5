//! An edge log in one block of a pool.
//!
//! The entries lie in the block as bytes: a header, a filter of destinations, payloads that grow forward, and entries
//! that grow backward from the block's end. A log knows beside them how much is in the block, how much of it is
//! committed, and where private end stamps stand. A full log moves to a larger block, and hands out what it was.
#![tactic(auto)]

mod changes;
mod form;
mod log;
mod moves;
mod moving;
mod old;
mod orders;
mod private;
mod reads;

pub use log::TelBlock;
pub use old::OldBlock;
