//! Whether the replies to a script are right for the records that committed, as one who has both would judge: for tests.
//!
//! The problem: the replies of workers that run at the same time differ from run to run, so no test can name them. The
//! mechanism: a judge goes over the lines in order, keeps of each session the transaction that its replies tell of, and
//! holds each reply against the plain graph at the transaction's printed epoch. The words: a story is such a transaction.
//!
//! That replies are legal is proved elsewhere, by clauses that speak of definitions; this is the same question asked by
//! code, and promises nothing.
#![tactic(auto)]

mod changes;
mod judge;
mod reads;
mod story;

pub use judge::{Judge, are_apart};
