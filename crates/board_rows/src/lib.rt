//! Threads that take turns on a small board, and a leader of commits there, run with ample memory. Tests alone.
#![tactic(auto)]

#[cfg(test)]
mod leader;
#[cfg(test)]
mod trials;
