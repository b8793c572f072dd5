//! The versions of one vertex's payload.
//!
//! A change of a payload pushes a version with the transaction's private stamp; the commit makes the stamp
//! an epoch. A reader takes the newest version that counts for it. A version without a payload says that
//! the vertex was dropped.
//!
//! The newest version lies in the row itself, and the older ones on the heap: a read that counts for the
//! newest touches no other memory.
#![tactic(auto)]

mod older_versions;
mod version;
mod versions;

pub use version::Version;
pub use versions::Versions;
