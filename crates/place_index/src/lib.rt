//! The places of a log that have a destination, the newest first, without a walk over those between.
//!
//! Each destination falls into one of some slots. The index keeps, for each slot, the newest place whose destination
//! falls into it, and, for each place, the next older one of the same slot. So the places of a slot are a chain from
//! the newest to the oldest; a destination's own are among them, and mostly there is no other.
#![tactic(auto)]

mod place_index;
mod slots;

pub use place_index::PlaceIndex;
