//! Values by their numbers: nearly all numbers are dense from 0 on, and some lie far beyond.
//!
//! The values of near numbers stand in a vector by number, and those of far ones in an ordered map. So a look at
//! a near one is one step, and a number that lies far beyond takes no room for those between.
#![tactic(auto)]

mod near;
mod number_map;

pub use number_map::NumberMap;

#[cfg(test)]
mod tests;
