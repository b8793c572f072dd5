//! A disk over a file of the system: the edge to it, which is trusted.

ghost use Rattle.std.specs.Prelude.{◌≡◌, None};
ghost use Rattle.io_edges.specs.Faults.{NeverFalls, Rose};

use crate::calls::raise;
use crate::lazy_file::LazyFile;
use crate::{Disk, Failed};
use std::fs::File;
use std::rt::Files;

/// A disk over the file of this name. It opens the file at its first use; a file that is not there has no byte,
/// and the first write makes it. It tells nothing of its bytes and its images: what the system does is trusted.
///
/// Before it first writes, cuts or syncs a file that is there it locks it, until the disk is dropped: so of two programs on
/// one file the second one to change it, or to make it firm, is refused. A file system without locks takes none. A length
/// and a read ask for no lock. The file never has the descriptor of a standard stream.
///
/// A call fails where the system's call does; where the file can't be opened, or is none, as a directory or a device; and
/// one that locks where the file may only be read, or is locked by another disk.
#[derive(Drop)]
pub struct FileDisk<'a, R: Files<File = File>> {
    rt: &'a R,
    file: LazyFile,
    faults: u64,
    moment: u64,
}

impl<'a, R: Files<File = File>> FileDisk<'a, R> {
    /// A disk over the file of this name, which is not opened yet.
    pub fn new(rt: &'a R, name: String) -> FileDisk<'a, R> {
        FileDisk {
            rt,
            file: LazyFile::new(name),
            faults: 0,
            moment: 0,
        }
    }

    /// Counts a fault.
    fn fault(&mut self) -> Failed
        ensures rose { Rose self.old.faults self.new.faults }
        ensures count { NeverFalls self.old.faults self.new.faults }
        ensures moment { self.new.moment ≡ self.old.moment }
    {
        raise(&mut self.faults);
        Failed
    }
}

impl<'a, R: Files<File = File>> Disk for FileDisk<'a, R> {
    ghost told = { λ _. None };

    ghost moment = { λ d. d.moment };

    ghost images = { λ _ _ _. Unit {0} };

    ghost faults = { λ d. d.faults };

    ghost reads_back = { λ _ _ _. tt };

    fn len(&mut self) -> Result<u64, Failed> {
        match self.file.length(self.rt) {
            Ok(n) => Ok(n),
            Err(_) => Err(self.fault()),
        }
    }

    fn read_at(&mut self, place: u64, buf: &mut [u8]) -> Result<usize, Failed> {
        match self.file.read(self.rt, place, buf) {
            Ok(n) => Ok(n),
            Err(_) => Err(self.fault()),
        }
    }

    fn write_at(&mut self, place: u64, bytes: &[u8]) -> Result<(), Failed> {
        raise(&mut self.moment);
        match self.file.write(self.rt, place, bytes) {
            Ok(()) => Ok(()),
            Err(_) => Err(self.fault()),
        }
    }

    fn cut(&mut self, to: u64) -> Result<(), Failed> {
        raise(&mut self.moment);
        match self.file.shorten(self.rt, to) {
            Ok(()) => Ok(()),
            Err(_) => Err(self.fault()),
        }
    }

    fn sync(&mut self) -> Result<(), Failed> {
        raise(&mut self.moment);
        match self.file.settle(self.rt) {
            Ok(()) => Ok(()),
            Err(_) => Err(self.fault()),
        }
    }

    fn faults(&self) -> u64 {
        self.faults
    }

    fn moment(&self) -> u64 {
        self.moment
    }
}
