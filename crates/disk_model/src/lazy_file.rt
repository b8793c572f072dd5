//! A file that is opened at its first use.

ghost use Rattle.std.specs.Prelude.{◌+◌, ◌<◌, ◌≤◌, ◌^◌, length, IfOk, OnOk};

use std::fs::{File, OpenOptions, TryLockError};
use std::io::{self, Error, ErrorKind};
use std::os::unix::fs::FileExt;
use std::path::Path;
use std::rt::Files;

/// How often a read that was interrupted is tried, at most.
const TRIES: u32 = 64;

/// No file is longer, and no read or write reaches further.
const MOST: u64 = (1 << 63) - 1;

/// What may be done with a file that is open.
#[derive(Clone, Copy, PartialEq, Eq)]
enum Hold {
    /// It may only be read.
    ReadOnly,
    /// It may be written too, and other programs may write it.
    Open,
    /// It may be written, and it is locked, if its file system has locks: another program that asks for the lock is refused.
    Locked,
}

/// The file of this name, opened once it is used. One that is not there has no byte, and the first write makes it. One
/// that is there is locked before it is first changed or made firm.
#[derive(Drop)]
pub struct LazyFile {
    name: String,
    file: Option<File>,
    hold: Hold,
    /// Since it was opened, no sync has succeeded.
    is_new: bool,
    /// Since the last sync that succeeded, it was cut.
    is_cut: bool,
}

impl LazyFile {
    /// The file of this name, which is not opened yet.
    pub fn new(name: String) -> LazyFile {
        LazyFile {
            name,
            file: None,
            hold: Hold::Open,
            is_new: true,
            is_cut: false,
        }
    }

    /// Opens the file, if it is there and not open yet: for reading alone where it may not be written.
    fn find<R: Files<File = File>>(&mut self, rt: &R) -> io::Result<()> {
        if self.file.is_some() {
            return Ok(());
        }
        match self.open(rt, OpenOptions::new().read(true).write(true)) {
            Ok(file) => self.keep(file, Hold::Open),
            Err(error) => match error.kind() {
                ErrorKind::NotFound => Ok(()),
                ErrorKind::PermissionDenied | ErrorKind::ReadOnlyFilesystem => {
                    let file = self.open(rt, OpenOptions::new().read(true))?;
                    self.keep(file, Hold::ReadOnly)
                }
                _ => Err(error),
            },
        }
    }

    /// Opens the file, and makes it if it is not there.
    fn make<R: Files<File = File>>(&mut self, rt: &R) -> io::Result<()> {
        if self.file.is_some() {
            return Ok(());
        }
        let file = self.open(rt, OpenOptions::new().read(true).write(true).create(true))?;
        self.keep(file, Hold::Open)
    }

    /// The file, opened so.
    fn open<R: Files<File = File>>(&self, rt: &R, how: &OpenOptions) -> io::Result<File> {
        how.open(rt, self.name.as_str())
    }

    /// Keeps the file that was opened. What is no file, as a device, has no length, and is refused.
    fn keep(&mut self, file: File, hold: Hold) -> io::Result<()> {
        if !file.metadata()?.is_file() {
            return Err(Error::from(ErrorKind::InvalidInput));
        }
        // Where a standard stream was closed the file has its descriptor, and what is printed would go into the file. A
        // clone has one above theirs.
        self.file = Some(file.try_clone()?);
        self.hold = hold;
        Ok(())
    }

    /// Locks the file, where it is open and not locked yet, until it is closed. `WouldBlock`: another program has locked it.
    fn lock(&mut self) -> io::Result<()> {
        let Some(file) = &self.file else {
            return Ok(());
        };
        match self.hold {
            Hold::ReadOnly => return Err(Error::from(ErrorKind::PermissionDenied)),
            Hold::Locked => return Ok(()),
            Hold::Open => {}
        }
        // A file system that has no locks answers another error.
        if let Err(TryLockError::WouldBlock) = file.try_lock() {
            return Err(Error::from(ErrorKind::WouldBlock));
        }
        self.hold = Hold::Locked;
        Ok(())
    }

    /// The length of the file.
    pub fn length<R: Files<File = File>>(&mut self, rt: &R) -> io::Result<u64>
        ensures { IfOk result (λ n. n < 2 ^ 63) }
    {
        self.find(rt)?;
        let Some(file) = &self.file else {
            return Ok(0);
        };
        let len = file.metadata()?.len();
        if len > MOST {
            return Err(Error::from(ErrorKind::InvalidData));
        }
        Ok(len)
    }

    /// Reads once; a read that was interrupted is tried again.
    pub fn read<R: Files<File = File>>(
        &mut self,
        rt: &R,
        place: u64,
        buf: &mut [u8],
    ) -> io::Result<usize>
        ensures { IfOk result (λ n. n ≤ length buf.new) }
    {
        self.find(rt)?;
        let Some(file) = &self.file else {
            return Ok(0);
        };
        if place > MOST {
            return Ok(0);
        }
        for _ in 0..TRIES {
            match file.read_at(buf, place) {
                Err(error) if error.kind() == ErrorKind::Interrupted => {}
                answer => return answer,
            }
        }
        Err(Error::from(ErrorKind::Interrupted))
    }

    /// Writes all the bytes.
    pub fn write<R: Files<File = File>>(
        &mut self,
        rt: &R,
        place: u64,
        bytes: &[u8],
    ) -> io::Result<()>
        requires { place + length bytes.now < 2 ^ 64 }
        ensures { OnOk result (place + length bytes.now < 2 ^ 63) }
    {
        if place + bytes.len() as u64 > MOST {
            return Err(Error::from(ErrorKind::InvalidInput));
        }
        self.make(rt)?;
        self.lock()?;
        match &self.file {
            Some(file) => file.write_all_at(bytes, place),
            None => Ok(()),
        }
    }

    /// Makes the file shorter, where it is longer.
    pub fn shorten<R: Files<File = File>>(&mut self, rt: &R, to: u64) -> io::Result<()> {
        if self.length(rt)? <= to {
            return Ok(());
        }
        self.lock()?;
        self.is_cut = true;
        match &self.file {
            Some(file) => file.set_len(to),
            None => Ok(()),
        }
    }

    /// Makes what was written firm: the bytes and the length, after a cut all that the system keeps of the file,
    /// and at the first time the file's name in its folder too.
    pub fn settle<R: Files<File = File>>(&mut self, rt: &R) -> io::Result<()> {
        self.find(rt)?;
        self.lock()?;
        let Some(file) = &self.file else {
            return Ok(());
        };
        if self.is_cut {
            file.sync_all()?;
        } else {
            file.sync_data()?;
        }
        if self.is_new {
            sync_folder(rt, self.name.as_str())?;
        }
        self.is_cut = false;
        self.is_new = false;
        Ok(())
    }
}

/// Makes a file's name in its folder firm.
fn sync_folder<R: Files<File = File>>(rt: &R, name: &str) -> io::Result<()> {
    let folder = match Path::new(name).parent() {
        Some(folder) if !folder.as_str().is_empty() => folder.as_str(),
        _ => ".",
    };
    File::open(rt, folder)?.sync_all()
}
