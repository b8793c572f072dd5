//! All versions of one vertex that somebody may still read.

ghost use Rattle.std.specs.Prelude.{◌≡◌, [], ◌∷◌, is_ok, if◌then◌else◌, Some, None, find};
ghost use Rattle.std.specs.Option.{option_copied};
ghost use Rattle.stamps.specs.Stamps.{Txn, counts};
ghost use Rattle.stamps.specs.declared.stamp.Stamp.TheVariants.{By};
ghost use Rattle.vertex_versions.specs.Versions.{payload_at, converted_versions, undone_versions, trimmed_versions};

use crate::Version;
use crate::older_versions::OlderVersions;
use graph_model::{NoMemory, Payload};
use stamps::Stamp;
use std::alloc::Global;
use std::marker::Model;

/// The versions of a vertex, which contracts see as a list, newest first.
#[derive(Drop)]
pub struct Versions {
    // The newest lies here, so that a read that it counts for waits for no other memory.
    newest: Option<Version>,
    older: OlderVersions,
}

impl Model for Versions {
    ghost use Rattle.std.specs.Prelude.{◌≡◌, ◌++◌, List, [], IfNone};
    ghost use Rattle.std.specs.Option.{option_to_list};
    ghost use Rattle.vertex_versions.specs.declared.version.Version.{Version};

    ghost Value = { List Version };

    ghost view = { λ a. option_to_list a.newest ++ a.older };

    ghost invariant = { λ a. IfNone a.newest (a.older ≡ []) };
}

impl Versions {
    /// A vertex that was never there. It takes no memory.
    pub fn new(alloc: Global) -> Versions
        ensures { result ≡ [] }
    {
        Versions {
            newest: None,
            older: OlderVersions::new(alloc),
        }
    }

    /// The payload in a snapshot of the epoch `read` for the transaction `tid`: that of the newest version
    /// that counts. None where no version counts, or the newest that does is a drop.
    ///
    /// Time: one step for each version that is newer, and one.
    #[inline(always)]
    pub fn newest_at(&self, read: u64, tid: u64) -> Option<&Payload>
        ensures { option_copied result ≡ payload_at self.now read (Txn tid) }
    {
        self.newest_counting(read, tid)?.content.as_ref()
    }

    /// Adds a version that is private to the transaction `tid`; no payload marks a drop.
    /// Time: amortized constant.
    pub fn push(&mut self, tid: u64, p: Option<Payload>) -> Result<(), NoMemory>
        ensures { self.new
            ≡ (if is_ok result then record { created = By tid; content = p } ∷ self.old else self.old) }
    {
        let version = Version {
            created: Stamp::By(tid),
            content: p,
        };
        match &mut self.newest {
            Some(newest) => self.older.replace_newest(newest, version)?,
            None => self.newest = Some(version),
        }
        Ok(())
    }

    /// Gives the versions that are private to `tid` this epoch. Time: one step for each version that was
    /// pushed since the last ones were converted or undone, however many are older.
    pub fn convert(&mut self, tid: u64, epoch: u64)
        ensures { self.new ≡ converted_versions tid epoch self.old }
    {
        if let Some(newest) = &mut self.newest {
            newest.created = newest.created.converted(tid, epoch);
        }
        self.older.convert(tid, epoch);
    }

    /// Takes the versions that are private to `tid` away. Time: that of `convert`, where one transaction
    /// after another pushes versions.
    pub fn undo(&mut self, tid: u64)
        ensures { self.new ≡ undone_versions tid self.old }
    {
        self.older.undo(tid);
        if matches!(&self.newest, Some(newest) if newest.created.is_by(tid)) {
            self.newest = self.older.pop();
        }
    }

    /// Drops the versions that no snapshot of an epoch from `horizon` on reads: all older than the newest
    /// one with an epoch at most `horizon`. Time: one step for each version.
    pub fn trim(&mut self, horizon: u64)
        ensures { self.new ≡ trimmed_versions horizon self.old }
    {
        match &self.newest {
            Some(newest) if newest.created.is_past(horizon) => self.older.clear(),
            _ => self.older.trim(horizon),
        }
    }

    // The newest version that counts.
    #[inline(always)]
    fn newest_counting(&self, read: u64, tid: u64) -> Option<&Version>
        ensures { option_copied result ≡ find (λ x. counts x.created read (Txn tid)) self.now }
    {
        let newest = self.newest.as_ref()?;
        if newest.created.counts(read, tid) {
            Some(newest)
        } else {
            self.older.newest_counting(read, tid)
        }
    }
}
