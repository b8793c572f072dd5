//! What a crash leaves of a script that several workers run while a call of the disk fails, as tests.
#![tactic(auto)]

#[cfg(test)]
mod asserts;
#[cfg(test)]
mod meeting;
#[cfg(test)]
mod run;
#[cfg(test)]
mod tests;
