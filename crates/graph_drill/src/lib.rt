//! A drill of a store: two scripts that are made of a seed, and the line that sums up what they leave.
//!
//! The first script makes a vertex for each session, in one transaction. The second runs in rounds: in each, every
//! session puts an edge at its own vertex in a transaction, takes an older one out in every fifth, and reads a list in
//! every tenth. What a session does hangs on the words that its own generator draws.
#![tactic(auto)]

mod drill;
mod drill_session;
mod scripts;
mod summary;
mod totals;

pub use scripts::drill_scripts;
pub use summary::{drill_text, drill_text_through};
