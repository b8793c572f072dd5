//! What a leader did, as events of an actor of the first pass.

use core_states::{Act, CoreAnswer};
use turn_board::Happens;

/// What the disk answers to an append.
#[derive(Clone, Copy, Debug, PartialEq, Eq)]
pub enum Append {
    /// The group is durable, and its second sync was at this moment.
    Durable { moment: u64 },
    /// A fault met the append, between these two counts of faults.
    Faulted { before: u64, after: u64 },
}

/// What a leader did, by the answers of its events: none where it did not come to the event, or there was no memory
/// for it.
#[derive(Drop)]
pub struct Led {
    pub collected: Option<CoreAnswer>,
    pub wrote: Option<CoreAnswer>,
    pub ended: Option<CoreAnswer>,
}

/// An event, where it was answered.
#[derive(Drop)]
pub struct Called<'a> {
    pub me: u32,
    pub act: Act,
    pub answer: &'a Option<CoreAnswer>,
}

impl Happens for Called<'_> {
    ghost use Rattle.leader_trial.specs.Done.{done_if};

    ghost events = { λ c _. done_if c.me c.act c.answer.now };
}

/// The group was noted as durable, and then published, where that was answered.
#[derive(Drop)]
pub struct Written<'a> {
    pub me: u32,
    pub moment: u64,
    pub wrote: &'a CoreAnswer,
    pub published: &'a Option<CoreAnswer>,
}

impl Happens for Written<'_> {
    ghost use Rattle.leader_trial.specs.Done.{wrote_and};

    ghost events = { λ c _. wrote_and c.me c.moment c.wrote.now c.published.now };
}
