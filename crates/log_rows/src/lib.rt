//! The log on a disk, what it recovers to, and the value of its turn: the bytes of worked logs, disks that fail or lie, and
//! that the calls succeed with ample memory. Tests alone.
#![tactic(auto)]

#[cfg(test)]
mod appends;
#[cfg(test)]
mod homes;
#[cfg(test)]
mod lying;
#[cfg(test)]
mod recovery;
#[cfg(test)]
mod silent;
