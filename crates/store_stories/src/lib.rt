//! Two sessions of a store at one desk, and two passes beside each other, which stay what they are by each call.
//!
//! What these calls are answered with ample memory, one after another, and what the disk has then, tests show that stand on
//! this crate.
#![tactic(auto)]

mod desk;
mod pair;

pub use desk::{Desk, desk_over};
pub use pair::{Beside, Pair, pair_of};
