//! Turns between threads over the state of the core. A value of a turn stands for a part of the core: the
//! rows of a shard, the clock, or the log part. A thread takes a turn with its value, does events of the core on it, and
//! gives both back.
//!
//! What is proved is a fact about all threads: the values at home and what the passes hold are, together,
//! one kept state of the core, and the events of all passes, each done by one holder between its take and its
//! give, are one run of the core that led there. So a take tells of a sound state, whatever the others do.
//!
//! A pass is what one thread knows. It has no bytes, and exists for the proofs: its number, its actors, the
//! events that it did, the turns that it holds, and the clocks and log parts that it has seen.
#![tactic(auto)]

mod board;
mod events;
mod home;
mod homes;
pub mod laws;
mod opened;
mod slots;
mod take;
mod view;

pub use board::{Pass, TurnBoard, Turns};
pub use events::{Happens, Nothing, ShowsPart};
pub use home::{Home, ShowsClock, ShowsLog, ShowsRows, Wide};
pub use homes::{Homes, Shards};
pub use take::Take;
pub use view::View;
