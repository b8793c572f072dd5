//! The words of scripts, of replies and of commands: places and texts of the descriptions. Tests alone.
#![tactic(auto)]

#[cfg(test)]
mod asserts;
#[cfg(test)]
mod commands;
#[cfg(test)]
mod texts;
