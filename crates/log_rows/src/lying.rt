//! A disk for tests: it tells what length it likes, and gives a few bytes a read.

ghost use Rattle.std.specs.Prelude.{◌≡◌};
ghost use Rattle.io_edges.specs.Faults.{one_more, NeverFalls, Rose};

use disk_model::{Disk, Failed};

/// A disk that tells a length of its own, and gives at most so many bytes a read. It is not there to be
/// written: each such call fails.
#[derive(Drop)]
pub struct Lying<'a> {
    bytes: &'a [u8],
    length: u32,
    piece: usize,
    reads: u64,
    writes: u64,
}

impl<'a> Lying<'a> {
    /// A disk of these bytes.
    pub fn new(bytes: &'a [u8], length: u32, piece: usize) -> Lying<'a> {
        Lying {
            bytes,
            length,
            piece,
            reads: 0,
            writes: 0,
        }
    }

    /// How many reads and how many other calls that change a disk there were.
    pub fn calls(&self) -> (u64, u64) {
        (self.reads, self.writes)
    }

    /// Counts a call that would change the disk, and fails it.
    fn refuse(&mut self) -> Failed
        ensures next { self.new.writes ≡ one_more self.old.writes }
        ensures rose { Rose self.old.writes self.new.writes }
        ensures count { NeverFalls self.old.writes self.new.writes }
    {
        self.writes = self.writes.saturating_add(1);
        Failed
    }
}

impl Disk for Lying<'_> {
    ghost use Rattle.std.specs.Prelude.{None};

    ghost told = { λ _. None };

    ghost moment = { λ d. d.writes };

    ghost images = { λ _ _ _. Unit {0} };

    ghost faults = { λ d. d.writes };

    ghost reads_back = { λ _ _ _. tt };

    fn len(&mut self) -> Result<u64, Failed> {
        Ok(self.length as u64)
    }

    fn read_at(&mut self, place: u64, buf: &mut [u8]) -> Result<usize, Failed> {
        self.reads = self.reads.saturating_add(1);
        let start = self.bytes.len().min(place as usize);
        let left = self.bytes.len() - start;
        let n = self.piece.min(buf.len()).min(left);
        buf[..n].copy_from_slice(&self.bytes[start..start + n]);
        Ok(n)
    }

    fn write_at(&mut self, _place: u64, _bytes: &[u8]) -> Result<(), Failed> {
        Err(self.refuse())
    }

    fn cut(&mut self, _to: u64) -> Result<(), Failed> {
        Err(self.refuse())
    }

    fn sync(&mut self) -> Result<(), Failed> {
        Err(self.refuse())
    }

    fn faults(&self) -> u64 {
        self.writes
    }

    fn moment(&self) -> u64 {
        self.writes
    }
}
