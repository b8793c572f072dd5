//! Whole scripts through the top call, over memory: what a user of the program sees. Tests alone.
#![tactic(auto)]

#[cfg(test)]
mod asserts;
#[cfg(test)]
mod crashes;
#[cfg(test)]
mod dialogues;
#[cfg(test)]
mod drills;
#[cfg(test)]
mod faults;
#[cfg(test)]
mod limits;
#[cfg(test)]
mod logs;
#[cfg(test)]
mod over_memory;
#[cfg(test)]
mod statuses;
