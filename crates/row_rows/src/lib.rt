//! Versions, the parts of edge logs and rows with ample memory: worked rows, and that the calls succeed. Tests alone.
#![tactic(auto)]

#[cfg(test)]
mod asserts;
#[cfg(test)]
mod cores;
#[cfg(test)]
mod openings;
#[cfg(test)]
mod parts;
#[cfg(test)]
mod rows;
#[cfg(test)]
mod versions;
