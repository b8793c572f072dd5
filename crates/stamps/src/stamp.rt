//! The stamp of an entry's or a version's beginning or end.

ghost use Rattle.std.specs.Prelude.{◌≡◌};
ghost use Rattle.stamps.specs.Stamps.{Nobody, Txn, counts, is_by, converted_stamp, cleared_stamp};

/// When something began or ended.
#[derive(Clone, Copy, Debug, PartialEq, Eq)]
pub enum Stamp {
    /// Not at all.
    Never,
    /// At an epoch, for every snapshot from that epoch on.
    At(u64),
    /// For the transaction of this number alone, which has not committed.
    By(u64),
}

impl Stamp {
    /// Whether it counts for the transaction `tid` in a snapshot of the epoch `read`.
    pub fn counts(self, read: u64, tid: u64) -> bool
        ensures { result ≡ counts self read (Txn tid) }
    {
        match self {
            Stamp::Never => false,
            Stamp::At(epoch) => epoch <= read,
            Stamp::By(transaction) => transaction == tid,
        }
    }

    /// Whether it counts in every snapshot from the epoch `horizon` on, whoever reads.
    pub fn is_past(self, horizon: u64) -> bool
        ensures { result ≡ counts self horizon Nobody }
    {
        matches!(self, Stamp::At(epoch) if epoch <= horizon)
    }

    /// Whether it is private to the transaction `tid`.
    pub fn is_by(self, tid: u64) -> bool
        ensures { result ≡ is_by tid self }
    {
        matches!(self, Stamp::By(transaction) if transaction == tid)
    }

    /// The stamp after the commit of `tid` at this epoch.
    pub fn converted(self, tid: u64, epoch: u64) -> Stamp
        ensures { result ≡ converted_stamp tid epoch self }
    {
        if self.is_by(tid) {
            Stamp::At(epoch)
        } else {
            self
        }
    }

    /// The stamp after `tid` was given up.
    pub fn cleared(self, tid: u64) -> Stamp
        ensures { result ≡ cleared_stamp tid self }
    {
        if self.is_by(tid) { Stamp::Never } else { self }
    }
}
