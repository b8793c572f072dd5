//! Lists of events by several actors, and their answers. Tests alone.
#![tactic(auto)]

#[cfg(test)]
mod interleavings;
#[cfg(test)]
mod scripts;
#[cfg(test)]
mod words;
