//! Whole runs over a plain graph, and lists that grow: with ample memory the calls succeed. Tests alone.
#![tactic(auto)]

#[cfg(test)]
mod asserts;
#[cfg(test)]
mod graphs;
