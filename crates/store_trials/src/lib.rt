//! Sessions at a board of two shards: the board is opened over a base and a log, a session does its events there, each
//! under its turn, and leads its commit where the log has a disk. Tests alone.
#![tactic(auto)]

#[cfg(test)]
mod asserts;
#[cfg(test)]
mod desk;
#[cfg(test)]
mod logs;
#[cfg(test)]
mod tests;
