//! The sessions of a worker: they are opened before its first line, and closed behind its last one.
//!
//! The problem: the law on the replies of a script asks that each worker's pass has noted exactly the events of its
//! sessions' opening, of its lines and of its sessions' closing. The mechanism: `open_all` and `close_all` go through the
//! sessions one by one, and their clauses say what is noted.
#![tactic(auto)]

mod filling;
mod sessions;

pub use filling::sessions_from;
pub use sessions::{close_all, open_all};
