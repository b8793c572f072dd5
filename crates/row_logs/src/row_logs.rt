//! The logs.

ghost use Rattle.std.specs.Prelude.{◌≡◌, ◌<◌, ◌++◌, ◌∷◌, [], true, length, slice_index_or, IfNone, OnOk};
ghost use Rattle.std.specs.Option.{option_to_list};
ghost use Rattle.std.specs.Borrow.{sem};

use std::alloc::{AllocError, Global};
use std::marker::Model;

/// The logs of a row, in order. Contracts see the list of them, and whether one more gets in without memory.
#[derive(Drop)]
pub struct RowLogs<L> {
    first: Option<L>,
    // All but the first: none where there is no first.
    others: Vec<L>,
}

impl<L> Model for RowLogs<L> {
    ghost use Rattle.row_logs.specs.Logs.{Logs, logs_code};

    ghost Value = { Logs L };

    ghost coded = { logs_code L.code };

    ghost use Rattle.row_logs.specs.Places.{logs_in, AreInOrder};

    ghost view = { logs_in };

    ghost invariant = { AreInOrder };
}

impl<L> RowLogs<L> {
    ghost use Rattle.row_logs.specs.Lends.{LendsAt};

    /// No log. It takes no memory.
    pub fn new(alloc: Global) -> RowLogs<L>
        ensures { result.items ≡ [] }
    {
        RowLogs {
            first: None,
            others: Vec::new(alloc),
        }
    }

    /// How many logs there are. Time: constant.
    #[inline(always)]
    pub fn len(&self) -> usize
        ensures { result ≡ length self.now.items }
    {
        match &self.first {
            Some(_) => 1 + self.others.len(),
            None => 0,
        }
    }

    /// The log at a place. Time: constant.
    #[inline(always)]
    pub fn at(&self, n: usize) -> &L
        requires { n < length self.now.items }
        ensures { result.now ≡ slice_index_or self.now.items n result.now }
    {
        if n > 0 {
            return &self.others[n - 1];
        }
        match &self.first {
            Some(first) => first,
            None => unreachable!(),
        }
    }

    /// The log at a place, to be changed. Time: constant.
    #[inline(always)]
    pub fn at_mut(&mut self, n: usize) -> &mut L
        requires { n < length self.old.items }
        ensures* lends { sem 𝓛 (LendsAt L.row self.entry n result) }
        ensures value { result.now ≡ slice_index_or self.old.items n result.now }
    {
        if n > 0 {
            return &mut self.others[n - 1];
        }
        match &mut self.first {
            Some(first) => first,
            None => unreachable!(),
        }
    }

    /// Makes room for one log more; the first one needs no memory. The logs stay. Time: amortized constant.
    pub fn reserve_one(&mut self) -> Result<(), AllocError>
        ensures has_room { OnOk result (self.new.has_room ≡ true) }
        ensures keeps { self.new.items ≡ self.old.items }
    {
        if self.first.is_none() {
            return Ok(());
        }
        self.others.reserve(1)
    }

    /// Puts a log behind the others. Time: constant.
    pub fn push_reserved(&mut self, log: L)
        requires { self.old.has_room ≡ true }
        ensures items { self.new.items ≡ self.old.items ++ log ∷ [] }
    {
        if self.first.is_some() {
            self.others.push_reserved(log);
            return;
        }
        match self.first.replace(log) {
            None => {}
            Some(_before) => unreachable!(),
        }
    }

    /// Takes the last log out; none where there is none. Time: constant.
    pub fn pop(&mut self) -> Option<L>
        ensures items { self.old.items ≡ self.new.items ++ option_to_list result }
        ensures none { IfNone result (self.old.items ≡ []) }
    {
        match self.others.pop() {
            Some(log) => Some(log),
            None => self.first.take(),
        }
    }

    /// Gives the memory of no logs back.
    pub fn destroy_empty(self)
        requires { self.items ≡ [] }
    {
        let RowLogs { first, others } = self;
        others.destroy_empty();
        match first {
            None => {}
            Some(_log) => unreachable!(),
        }
    }
}
