//! The clock and the rows of its readers: worked cases, and that rows are opened and transactions begin with ample memory.
//! Tests alone.
#![tactic(auto)]

#[cfg(test)]
mod clock;
#[cfg(test)]
mod readers;
