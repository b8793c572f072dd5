//! The calls of an object over memory, and which of them fail.

ghost use Rattle.std.specs.Prelude.{◌≡◌, ◌↔◌, IsTrue};
ghost use Rattle.io_edges.specs.Calls.{no_call, next_call, IsNextListed};
ghost use Rattle.io_edges.specs.Faults.{one_more, NeverFalls, Rose};

use std::marker::Model;

/// How many calls there were, the numbers of those that fail, and how many faults there were. A count that
/// has reached 2^64 - 1 stays there.
#[derive(Drop)]
pub struct Calls {
    calls: u64,
    failing: Vec<u64>,
    faults: u64,
}

impl Model for Calls {
    ghost use Rattle.io_edges.specs.Calls.{CallCount};

    ghost Value = { CallCount };

    ghost view = { λ c. record { calls = c.calls; failing = c.failing.items; faults = c.faults } };
}

impl Calls {
    /// No call yet; the calls of these numbers, from 1, fail.
    pub fn new(failing: Vec<u64>) -> Calls
        ensures { result ≡ no_call failing.items }
    {
        Calls {
            calls: 0,
            failing,
            faults: 0,
        }
    }

    /// Counts a call, and says whether it is listed among those that fail. Time: one step for each listed.
    pub fn is_next_listed(&mut self) -> bool
        ensures listed { IsTrue result ↔ IsNextListed self.old }
        ensures counted { self.new ≡ record self.old { calls = next_call self.old } }
    {
        self.calls = self.calls.saturating_add(1);
        self.failing.contains(&self.calls)
    }

    /// Counts a fault.
    pub fn add_fault(&mut self)
        ensures counted { self.new ≡ record self.old { faults = one_more self.old.faults } }
        ensures rose { Rose self.old.faults self.new.faults }
        ensures count { NeverFalls self.old.faults self.new.faults }
    {
        self.faults = self.faults.saturating_add(1);
    }

    /// The count of faults.
    pub fn faults(&self) -> u64
        ensures { result ≡ self.now.faults }
    {
        self.faults
    }
}
