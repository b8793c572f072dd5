//! The parts of the store do the events of the core as the core does them: generated lists of events by several actors
//! go through both, and each answer is compared.
//!
//! A part asks more of its caller than that the event is enabled: what it asks holds in every state of the core that
//! events led to. So what is done here is what a store does whose parts stand for the core's.
#![tactic(auto)]

mod answers;
mod clock_acts;
mod group_acts;
mod members;
mod row_acts;
mod row_changes;
mod together;

pub use answers::same_answer;
pub use clock_acts::act_on_clock;
pub use group_acts::act_on_group;
pub use row_acts::act_on;
pub use together::{Went, do_event, new_core};
