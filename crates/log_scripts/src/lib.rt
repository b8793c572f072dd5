//! Scripts for edge logs, run by every form of a log: they answer and show the same. Tests alone.
#![tactic(auto)]

#[cfg(test)]
mod alike;
#[cfg(test)]
mod asserts;
#[cfg(test)]
mod neighbours;
#[cfg(test)]
mod readings;
#[cfg(test)]
mod script;
#[cfg(test)]
mod steps;
