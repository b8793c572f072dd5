//! Sources, sinks and disks: that calls succeed with ample memory, the images of worked examples, and how real streams
//! and files behave. Tests alone.
#![tactic(auto)]

#[cfg(test)]
mod asserts;
#[cfg(test)]
mod disks;
#[cfg(test)]
mod edges;
