//! A leader of commits on a small board: the board's calls, and the core's events on the log part, the clock and a row,
//! as a store uses them.
#![tactic(auto)]

mod events;
mod leader;
mod opening;
mod parts;
mod trial;
mod work;

pub use events::{Append, Called, Led, Written};
pub use leader::lead;
pub use opening::{board_of, new_actor};
pub use parts::{Board, Hand, Holder, Paper, Rows, Spot};
pub use trial::lead_one;
pub use work::{make_first, on_clock};
