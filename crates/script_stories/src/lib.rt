//! Whole scripts on a new log, by one worker and by several, as tests.
#![tactic(auto)]

#[cfg(test)]
mod asserts;
#[cfg(test)]
mod meeting;
#[cfg(test)]
mod tests;
