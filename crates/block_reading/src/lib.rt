//! An edge log read from the bytes of a block, by what a log knows beside them: the block's order or where its
//! payloads begin, how many entries there are, and how many bytes their payloads have.
#![tactic(auto)]

mod parts;
mod rows;
mod walks;

pub use parts::{part, part_of_past, payload};
pub use rows::entry_at;
pub use walks::{find, may_lead_to, search};
