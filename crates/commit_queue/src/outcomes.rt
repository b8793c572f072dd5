//! The outcomes that are kept.

ghost use Rattle.std.specs.Prelude.{◌≡◌, ◌+◌, ◌<◌, ◌≤◌, [], ◌∷◌, ◌++◌, length, None, OnOk};
ghost use Rattle.commit_queue.specs.KeptOutcomes.{outcome_of, place_in, noted_place, kept_for, KeepsAt, KeepsFor, AllNew};

use graph_model::{NoMemory, Outcome};
use group_commit::Group;
use std::alloc::Global;
use std::collections::VecDeque;
use std::marker::Model;

/// The outcomes that are kept, each for the number of a transaction, and room for some more.
///
/// Transactions have numbers that are drawn one after another, and those that run are asked for. So where an outcome stands
/// is noted by number, for the numbers that are expected: from some number on, which rises, up to the last one.
#[derive(Drop)]
pub struct Outcomes {
    // In the order in which they were kept.
    kept: Vec<(u64, Outcome)>,
    // For no number above this one an outcome is kept.
    most: u64,
    // The first number that is expected.
    first: u64,
    // For each number from there on one more than the place of its outcome, or 0 where none is kept.
    places: VecDeque<usize>,
}

impl Model for Outcomes {
    ghost use Rattle.commit_queue.specs.KeptOutcomes.{KeptOutcomes};
    ghost use Rattle.commit_queue.specs.ShownOutcomes.{kept_outcomes, ArePlaced};

    ghost Value = { KeptOutcomes };

    ghost view = { kept_outcomes };

    ghost invariant = { ArePlaced };
}

impl Outcomes {
    /// Nothing is kept. It takes no memory.
    pub fn new(alloc: Global) -> Outcomes
        ensures { result.kept ≡ [] }
    {
        Outcomes {
            kept: Vec::new(alloc),
            most: 0,
            first: 0,
            places: VecDeque::new(alloc),
        }
    }

    /// Makes room for this many outcomes more. After NoMemory the same outcomes are kept. Time: where there is no
    /// room, one step for each outcome that is kept.
    pub fn reserve(&mut self, more: usize) -> Result<(), NoMemory>
        ensures kept { self.new.kept ≡ self.old.kept }
        ensures room { OnOk result (more ≤ self.new.room) }
        ensures keeps { self.old.room ≤ self.new.room }
    {
        self.kept.reserve(more)?;
        Ok(())
    }

    /// Expects an outcome for a number, so that it is found in one step, where this is the first number that is expected, or
    /// the one after the last; numbers below `oldest` are expected no more. After NoMemory the number is not expected.
    ///
    /// Time: amortized constant for a number that is above those for which an outcome is kept. Memory: that of a place for
    /// each number from `oldest` on, while numbers are expected one after another.
    pub fn expect(&mut self, tid: u64, oldest: u64) -> Result<(), NoMemory>
        ensures { self.new ≡ self.old }
    {
        // Two for one that comes, so that there are fewer again once there were many.
        self.forget_one(oldest);
        self.forget_one(oldest);
        if self.places.is_empty() {
            self.first = tid;
        }
        if tid < self.first || tid - self.first != self.places.len() as u64 {
            return Ok(());
        }
        let noted = self.noted(tid);
        self.places.push_back(noted)?;
        Ok(())
    }

    // Expects the first number no more, where it is below this one.
    fn forget_one(&mut self, oldest: u64)
        ensures { self.new ≡ self.old }
    {
        if self.first < oldest && self.places.pop_front().is_some() {
            self.first += 1;
        }
    }

    // Where the outcome for a number stands, as it is noted. Time: that of `search`.
    fn noted(&self, tid: u64) -> usize
        ensures place { noted_place (length self.now.kept) result ≡ place_in tid self.now.kept }
        ensures within { result ≤ length self.now.kept }
    {
        let place = self.search(tid);
        if place < self.kept.len() {
            place + 1
        } else {
            0
        }
    }

    /// Keeps one outcome for the number of each member of a group, behind those that are kept where they are new.
    /// It takes no memory. Time: one step for each member whose number was expected.
    pub fn keep(&mut self, g: &Group, o: Outcome)
        requires { length g.now ≤ self.old.room }
        ensures kept { KeepsFor g.now o self.old.kept self.new.kept }
        ensures appended { AllNew g.now self.old.kept → self.new.kept ≡ self.old.kept ++ kept_for o g.now }
        ensures room { self.old.room ≤ self.new.room + length g.now }
    {
        for i in 0..g.len() {
            let Some(member) = g.get(i) else {
                return;
            };
            self.keep_one(member.record().tid, o);
        }
    }

    // Keeps an outcome for one number.
    fn keep_one(&mut self, tid: u64, o: Outcome)
        requires { 0 < self.old.room }
        ensures kept { KeepsAt tid o self.old.kept self.new.kept }
        ensures appended { outcome_of tid self.old.kept ≡ None → self.new.kept ≡ self.old.kept ++ (tid, o) ∷ [] }
        ensures room { self.old.room ≤ self.new.room + 1 }
    {
        let i = self.place(tid);
        if i < self.kept.len() {
            self.kept[i] = (tid, o);
        } else {
            self.append(tid, o);
        }
    }

    // Keeps the first outcome for a number.
    fn append(&mut self, tid: u64, o: Outcome)
        requires new { place_in tid self.old.kept ≡ length self.old.kept }
        requires room { 0 < self.old.room }
        ensures kept { self.new.kept ≡ self.old.kept ++ (tid, o) ∷ [] }
        ensures room { self.old.room ≤ self.new.room + 1 }
    {
        self.kept.push_reserved((tid, o));
        self.most = self.most.max(tid);
        if tid >= self.first && tid - self.first < self.places.len() as u64 {
            self.places[(tid - self.first) as usize] = self.kept.len();
        }
    }

    // Where the outcome for a number stands; the number of outcomes where none is kept for it. Time: constant for a number
    // that was expected, or that is above those for which an outcome is kept; else one step for each outcome.
    fn place(&self, tid: u64) -> usize
        ensures { result ≡ place_in tid self.now.kept }
    {
        if tid < self.first || tid - self.first >= self.places.len() as u64 {
            return self.search(tid);
        }
        match self.places[(tid - self.first) as usize] {
            0 => self.kept.len(),
            noted => noted - 1,
        }
    }

    // The same, where it is not noted.
    fn search(&self, tid: u64) -> usize
        ensures { result ≡ place_in tid self.now.kept }
    {
        if tid > self.most {
            return self.kept.len();
        }
        let mut i = 0;
        while i < self.kept.len() && self.kept[i].0 != tid {
            i += 1;
        }
        i
    }

    /// The outcome that is kept for a number; none where nothing was kept for it. Time: constant for a number that was
    /// expected, or that is above those for which an outcome is kept; else one step for each outcome.
    pub fn of(&self, tid: u64) -> Option<Outcome>
        ensures { result ≡ outcome_of tid self.now.kept }
    {
        let i = self.place(tid);
        if i < self.kept.len() {
            Some(self.kept[i].1)
        } else {
            None
        }
    }
}
