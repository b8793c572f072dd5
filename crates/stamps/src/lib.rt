//! Stamps: from which epoch, and for whom, an entry of a log or a version of a vertex counts.
//!
//! A committed stamp is an epoch. A stamp of a transaction that runs is private to it, and becomes an
//! epoch at its commit. Stamps are an enum here: what they are as numbers is known only where bytes are.
#![tactic(auto)]

mod stamp;

pub use stamp::Stamp;
