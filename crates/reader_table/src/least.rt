//! What some rows have least.

ghost use Rattle.std.specs.Prelude.{◌≡◌};
ghost use Rattle.reader_table.specs.Leasts.{both, nothing, least_in};

use crate::Row;

/// The least read epoch and the least number of the transactions that run in some rows, and the least number
/// of a closed one among them. Where there is none, the greatest number of the type.
#[derive(Clone, Copy, Debug)]
pub struct Least {
    pub read: u64,
    pub tid: u64,
    pub closed: u32,
}

impl Least {
    /// What no rows have.
    pub fn nothing() -> Least
        ensures { result ≡ nothing }
    {
        Least {
            read: u64::MAX,
            tid: u64::MAX,
            closed: u32::MAX,
        }
    }

    /// What the row of this number has.
    pub fn of(number: u32, row: Row) -> Least
        ensures { result ≡ least_in number row }
    {
        match row {
            Row::Closed => Least {
                closed: number,
                ..Least::nothing()
            },
            Row::Idle => Least::nothing(),
            Row::Active { tid, read } => Least {
                read,
                tid,
                ..Least::nothing()
            },
        }
    }

    /// What these rows and those have.
    pub fn and(self, other: Least) -> Least
        ensures { result ≡ both self other }
    {
        Least {
            read: self.read.min(other.read),
            tid: self.tid.min(other.tid),
            closed: self.closed.min(other.closed),
        }
    }
}
