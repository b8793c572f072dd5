//! A disk that calls a hook before each call: a test aid.

ghost use Rattle.std.specs.Prelude.{◌≡◌};
ghost use Rattle.disk_model.specs.Calls.{no_calls};

use crate::calls::Calls;
use crate::{Disk, Failed, Kind};

/// What is to be done before a call of a disk.
pub trait Hook {
    /// A call of this kind comes; it is the one of this number, from 1, of its kind.
    fn before(&self, kind: Kind, number: u64);
}

/// A disk that calls its hook before each call, and then passes the call on to the disk inside. What it tells
/// is what that disk tells.
#[derive(Drop)]
pub struct HookDisk<D, H> {
    disk: D,
    hook: H,
    calls: Calls,
}

impl<D: Disk, H: Hook> HookDisk<D, H> {
    /// This disk with this hook; no call was made yet.
    pub fn new(disk: D, hook: H) -> HookDisk<D, H>
        ensures { result ≡ record { disk = disk; hook = hook; calls = no_calls } }
    {
        HookDisk {
            disk,
            hook,
            calls: Calls::none(),
        }
    }

    /// The disk inside.
    pub fn into_disk(self) -> D
    where
        H: Drop,
        ensures { result ≡ self.disk }
    {
        self.disk
    }

    /// Counts a call of this kind, and calls the hook.
    fn call(&mut self, kind: Kind)
        ensures { self.new.disk ≡ self.old.disk }
    {
        let number = self.calls.count(kind);
        self.hook.before(kind, number);
    }
}

impl<D: Disk, H: Hook> Disk for HookDisk<D, H> {
    ghost told = { λ d. D.told d.disk };

    ghost moment = { λ d. D.moment d.disk };

    ghost images = { λ d. D.images d.disk };

    ghost faults = { λ d. D.faults d.disk };

    ghost reads_back = { λ d. D.reads_back d.disk };

    fn len(&mut self) -> Result<u64, Failed> {
        self.call(Kind::Len);
        self.disk.len()
    }

    fn read_at(&mut self, place: u64, buf: &mut [u8]) -> Result<usize, Failed> {
        self.call(Kind::Read);
        self.disk.read_at(place, buf)
    }

    fn write_at(&mut self, place: u64, bytes: &[u8]) -> Result<(), Failed> {
        self.call(Kind::Write);
        self.disk.write_at(place, bytes)
    }

    fn cut(&mut self, to: u64) -> Result<(), Failed> {
        self.call(Kind::Cut);
        self.disk.cut(to)
    }

    fn sync(&mut self) -> Result<(), Failed> {
        self.call(Kind::Sync);
        self.disk.sync()
    }

    fn faults(&self) -> u64 {
        self.disk.faults()
    }

    fn moment(&self) -> u64 {
        self.disk.moment()
    }
}
