//! The kinds of calls of a disk, and how often each was made.

ghost use Rattle.std.specs.Prelude.{◌≡◌};
ghost use Rattle.io_edges.specs.Faults.{one_more, NeverFalls, Rose};
ghost use Rattle.disk_model.specs.Calls.{count_of, called, no_calls};

/// A kind of call of a disk.
#[derive(Clone, Copy, Debug, PartialEq, Eq)]
pub enum Kind {
    Len,
    Read,
    Write,
    Cut,
    Sync,
}

/// The call of this kind and number, from 1, which is to fail.
#[derive(Clone, Copy, Debug, PartialEq, Eq)]
pub struct Fail {
    pub kind: Kind,
    pub number: u64,
}

/// How many calls of each kind there were. A count that has reached 2^64 - 1 stays there.
#[derive(Clone, Copy, Debug, PartialEq, Eq)]
pub struct Calls {
    pub len: u64,
    pub read: u64,
    pub write: u64,
    pub cut: u64,
    pub sync: u64,
}

impl Calls {
    /// No call yet.
    pub fn none() -> Calls
        ensures { result ≡ no_calls }
    {
        Calls {
            len: 0,
            read: 0,
            write: 0,
            cut: 0,
            sync: 0,
        }
    }

    /// Counts a call of this kind, and answers its number, from 1.
    pub fn count(&mut self, kind: Kind) -> u64
        ensures counted { self.new ≡ called self.old kind }
        ensures number { result ≡ count_of self.new kind }
    {
        match kind {
            Kind::Len => raise(&mut self.len),
            Kind::Read => raise(&mut self.read),
            Kind::Write => raise(&mut self.write),
            Kind::Cut => raise(&mut self.cut),
            Kind::Sync => raise(&mut self.sync),
        }
    }
}

/// Raises a count by one, and answers it.
pub(crate) fn raise(count: &mut u64) -> u64
    ensures raised { count.new ≡ one_more count.old }
    ensures answer { result ≡ count.new }
    ensures rose { Rose count.old count.new }
    ensures kept { NeverFalls count.old count.new }
{
    *count = count.saturating_add(1);
    *count
}
