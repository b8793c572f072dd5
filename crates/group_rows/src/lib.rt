//! Groups of records, and the members that wait to be written: the worked example of the format, and that the calls
//! succeed with ample memory. Tests alone.
#![tactic(auto)]

#[cfg(test)]
mod asserts;
#[cfg(test)]
mod codec;
#[cfg(test)]
mod groups;
#[cfg(test)]
mod queues;
