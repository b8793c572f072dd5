//! Blocks of a pool, and edge logs in them: the bytes and the places of worked examples, and that the calls succeed
//! with ample memory. Tests alone.
#![tactic(auto)]

#[cfg(test)]
mod asserts;
#[cfg(test)]
mod blocks;
#[cfg(test)]
mod entries;
#[cfg(test)]
mod logs;
#[cfg(test)]
mod places;
#[cfg(test)]
mod pool;
#[cfg(test)]
mod readings;
#[cfg(test)]
mod writings;
