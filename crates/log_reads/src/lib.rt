//! What a transaction sees of an edge log that lies in a room: all edges, whether there is one, and the payload of
//! one. A log gives its edges in parts, from the newest entry down; here the parts are put together.
#![tactic(auto)]

mod reads;

pub use reads::{pairs, payload_to, shows_any};

#[cfg(test)]
mod tests;
