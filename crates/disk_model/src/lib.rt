//! A disk: one file that is read, written, cut and synced, and what a crash may leave of it.
//!
//! The problem: between two syncs the system writes what it was given in any order, in parts or not at all.
//! So a contract over a disk speaks of images: what a crash at a moment may leave. A disk has a moment, a
//! number that each write, cut and sync raises, and for each moment up to now its images. A disk may tell its
//! bytes to contracts, as the one over memory does, or tell nothing, as a real file does; what contracts say of
//! bytes and images is then silent.
#![tactic(auto)]

mod calls;
mod disk;
mod event;
mod file_disk;
mod growth;
mod history;
mod hook_disk;
mod lazy_file;
mod mem_disk;
mod replay;

pub use calls::{Fail, Kind};
pub use disk::Disk;
pub use file_disk::FileDisk;
pub use hook_disk::{Hook, HookDisk};
pub use io_edges::{Bytes, Failed, NoMemory};
pub use mem_disk::MemDisk;
