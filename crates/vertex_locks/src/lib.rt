//! Lock rows: which transaction owns a vertex, and at which epoch the vertex was last changed.
//!
//! A transaction changes a vertex only while it owns its row. It takes a row only where no commit after
//! its snapshot changed the vertex, so that of two transactions that overlap at most one changes it.
#![tactic(auto)]

mod answer;
mod lock_row;

pub use answer::Look;
pub use lock_row::{LockRow, look};
