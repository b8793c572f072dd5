//! What is kept of commits, and the room for more.

ghost use Rattle.std.specs.Prelude.{◌≡◌, ◌+◌, ◌<◌, ◌≤◌, [], ◌∷◌, ◌++◌, ℕ, length, vec_len, vec_capacity, take, drop, OnOk};
ghost use Rattle.graph_model.specs.Records.{group_most};
ghost use Rattle.group_commit.specs.Members.{records_at};
ghost use Rattle.commit_queue.specs.KeptOutcomes.{kept_for, AllNew};
ghost use Rattle.epoch_clock.specs.CommitRooms.{HasRoomFor};

use commit_queue::{Outcomes, Queue};
use graph_model::{Moments, NoMemory, Outcome, Record, Records};
use group_commit::Group;
use std::alloc::Global;
use std::collections::VecDeque;

/// What waits to be committed, and what became of what was.
#[derive(Drop)]
pub struct Commits {
    /// The members that wait.
    pub queue: Queue,
    /// The outcomes that are kept.
    pub outcomes: Outcomes,
    /// The published records.
    pub records: Vec<Record>,
    /// The moment of each published group.
    pub moments: Vec<u64>,
    /// Of each epoch above the visible one, how many records are not done.
    pub undone: VecDeque<usize>,
}

impl Commits {
    /// Nothing. It takes no memory.
    pub fn new(alloc: Global) -> Commits
        ensures queue { result.queue.members ≡ [] }
        ensures outcomes { result.outcomes.kept ≡ [] }
        ensures records { result.records.items ≡ [] }
        ensures moments { result.moments.items ≡ [] }
        ensures undone { result.undone.items ≡ [] }
        ensures room { HasRoomFor 0 result }
    {
        Commits {
            queue: Queue::new(alloc),
            outcomes: Outcomes::new(alloc),
            records: Vec::new(alloc),
            moments: Vec::new(alloc),
            undone: VecDeque::new(alloc),
        }
    }

    /// Makes room for so many transactions, of which the one that begins has this number; none that runs has one below
    /// `oldest`. After NoMemory the same is kept, and there is as much room as there was.
    pub fn reserve(&mut self, more: usize, tid: u64, oldest: u64) -> Result<(), NoMemory>
        ensures room { OnOk result (HasRoomFor more self.new) }
        ensures queue { self.new.queue.members ≡ self.old.queue.members }
        ensures outcomes { self.new.outcomes.kept ≡ self.old.outcomes.kept }
        ensures records { self.new.records.items ≡ self.old.records.items }
        ensures moments { self.new.moments.items ≡ self.old.moments.items }
        ensures undone { self.new.undone.items ≡ self.old.undone.items }
        ensures keeps { (n : ℕ) → HasRoomFor n self.old → HasRoomFor n self.new }
    {
        self.queue.reserve(more)?;
        self.outcomes.reserve(more)?;
        self.outcomes.expect(tid, oldest)?;
        self.records.reserve(more)?;
        self.moments.reserve(more)?;
        self.undone.reserve(more)?;
        Ok(())
    }

    /// Keeps a group that is published: the outcome and the record of each member, which leaves the group, the moment,
    /// and how many are not done. It takes no memory. Time: one step for each member.
    pub fn publish(&mut self, group: &mut Group, epoch: u64, moment: u64)
        requires some { 0 < length group.old }
        requires fresh { AllNew group.old self.old.outcomes.kept }
        requires room { HasRoomFor (length group.old) self.old }
        ensures outcomes { self.new.outcomes.kept
            ≡ self.old.outcomes.kept ++ kept_for (Outcome.Committed epoch) group.old }
        ensures records { self.new.records.items ≡ self.old.records.items ++ records_at epoch group.old }
        ensures moments { self.new.moments.items ≡ self.old.moments.items ++ moment ∷ [] }
        ensures undone { self.new.undone.items ≡ self.old.undone.items ++ length group.old ∷ [] }
        ensures queue { self.new.queue.members ≡ self.old.queue.members }
        ensures room { (n : ℕ) → HasRoomFor (n + length group.old) self.old → HasRoomFor n self.new }
        ensures emptied { group.new ≡ [] }
    {
        self.outcomes.keep(group, Outcome::Committed { epoch });
        self.moments.push_reserved(moment);
        self.undone.push_back_reserved(group.len());
        keep_records(&mut self.records, group, epoch);
    }

    /// Keeps the outcome of a group that failed. It takes no memory. Time: one step for each member.
    pub fn fail(&mut self, group: &Group, failed: Outcome)
        requires fresh { AllNew group.now self.old.outcomes.kept }
        requires room { HasRoomFor (length group.now) self.old }
        ensures outcomes { self.new.outcomes.kept ≡ self.old.outcomes.kept ++ kept_for failed group.now }
        ensures records { self.new.records.items ≡ self.old.records.items }
        ensures moments { self.new.moments.items ≡ self.old.moments.items }
        ensures undone { self.new.undone.items ≡ self.old.undone.items }
        ensures queue { self.new.queue.members ≡ self.old.queue.members }
        ensures room { (n : ℕ) → HasRoomFor (n + length group.now) self.old → HasRoomFor n self.new }
    {
        self.outcomes.keep(group, failed);
    }

    /// The records and the moments. It takes no memory.
    pub fn into_ends(self) -> (Records, Moments)
        ensures records { result.0 ≡ self.records.items }
        ensures moments { result.1 ≡ self.moments.items }
    {
        let Commits {
            records,
            moments,
            ..
        } = self;
        (Records::from_vec(records), Moments::from_vec(moments))
    }
}

// Keeps the records of a group, each with its epoch, and leaves the group empty. Time: two steps for each member.
fn keep_records(records: &mut Vec<Record>, group: &mut Group, epoch: u64)
    requires { vec_len records.old + length group.old ≤ vec_capacity records.old }
    ensures records { records.new.items ≡ records.old.items ++ records_at epoch group.old }
    ensures len { vec_len records.new ≡ vec_len records.old + length group.old }
    ensures keeps { vec_capacity records.new ≡ vec_capacity records.old }
    ensures emptied { group.new ≡ [] }
{
    group.reverse();
    while let Some(member) = group.pop() {
        let mut record = member.into_record();
        record.epoch = epoch;
        records.push_reserved(record);
    }
}
