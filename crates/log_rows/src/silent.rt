//! A disk for tests: over memory, and telling nothing, as a real file does.

ghost use Rattle.std.specs.Prelude.{◌≡◌};
ghost use Rattle.io_edges.specs.Faults.{NeverFalls, Rose};

use disk_model::{Disk, Failed, MemDisk};

/// A disk over memory that tells nothing of its bytes and images.
#[derive(Drop)]
pub struct Silent {
    disk: MemDisk,
    faults: u64,
    moment: u64,
}

impl Silent {
    /// This disk, telling nothing.
    pub fn new(disk: MemDisk) -> Silent {
        Silent {
            disk,
            faults: 0,
            moment: 0,
        }
    }

    /// The disk, which tells its bytes and images.
    pub fn into_disk(self) -> MemDisk {
        self.disk
    }

    /// Counts a fault.
    fn fault(&mut self) -> Failed
        ensures rose { Rose self.old.faults self.new.faults }
        ensures count { NeverFalls self.old.faults self.new.faults }
        ensures moment { self.new.moment ≡ self.old.moment }
    {
        self.faults = self.faults.saturating_add(1);
        Failed
    }
}

impl Disk for Silent {
    ghost use Rattle.std.specs.Prelude.{None};

    ghost told = { λ _. None };

    ghost moment = { λ d. d.moment };

    ghost images = { λ _ _ _. Unit {0} };

    ghost faults = { λ d. d.faults };

    ghost reads_back = { λ _ _ _. tt };

    fn len(&mut self) -> Result<u64, Failed> {
        match self.disk.len() {
            Ok(n) => Ok(n),
            Err(_) => Err(self.fault()),
        }
    }

    fn read_at(&mut self, place: u64, buf: &mut [u8]) -> Result<usize, Failed> {
        match self.disk.read_at(place, buf) {
            Ok(n) => Ok(n),
            Err(_) => Err(self.fault()),
        }
    }

    fn write_at(&mut self, place: u64, bytes: &[u8]) -> Result<(), Failed> {
        self.moment = self.moment.saturating_add(1);
        if place > self.disk.bytes().len() as u64 {
            return Err(self.fault());
        }
        match self.disk.write_at(place, bytes) {
            Ok(()) => Ok(()),
            Err(_) => Err(self.fault()),
        }
    }

    fn cut(&mut self, to: u64) -> Result<(), Failed> {
        self.moment = self.moment.saturating_add(1);
        match self.disk.cut(to) {
            Ok(()) => Ok(()),
            Err(_) => Err(self.fault()),
        }
    }

    fn sync(&mut self) -> Result<(), Failed> {
        self.moment = self.moment.saturating_add(1);
        match self.disk.sync() {
            Ok(()) => Ok(()),
            Err(_) => Err(self.fault()),
        }
    }

    fn faults(&self) -> u64 {
        self.faults
    }

    fn moment(&self) -> u64 {
        self.moment
    }
}
