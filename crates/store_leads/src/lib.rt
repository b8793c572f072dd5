//! A session that leads a commit: it takes the log's turn, has patience where other records may come soon, collects a
//! group under the clock's turn beside the log's, appends the group, and publishes it or gives it up under the clock's
//! again. The clock's turn is free while the disk works.
#![tactic(auto)]

mod appending;
mod collecting;
mod ending;
mod leading;
mod patience;

pub use leading::lead;
