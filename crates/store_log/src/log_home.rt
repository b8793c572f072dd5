//! The log as the value of its turn.

ghost use Rattle.std.specs.Prelude.{◌≡◌, ◌+◌, ◌<◌, ◌≤◌, ℕ, List, [], true, false, None, length, IfOk, IfErr, OnOk, OnErr, IfSome};
ghost use Rattle.io_edges.specs.Faults.{Rose};
ghost use Rattle.graph_model.specs.declared.record.Record.{Record};
ghost use Rattle.graph_model.specs.Records.{last_epoch, number_end};
ghost use Rattle.disk_model.specs.Images.{GoesOn};
ghost use Rattle.group_commit.specs.Members.{records_at};
ghost use Rattle.graph_wal.specs.Appends.{AreDurableBy, HasAppended};
ghost use Rattle.graph_wal.specs.Fault.{IsFault};
ghost use Rattle.graph_wal.specs.Log.{HasNoRest, IsMended, IsSettled};
ghost use Rattle.graph_wal.specs.Pieces.{AreWithin};
ghost use Rattle.core_states.specs.LogParts.{opened_part};
ghost use Rattle.store_log.specs.Written.{Origin, begun, more_durable, more_tried, durable_records, disk_of, firmness_of, IsInEpochs};
ghost use Rattle.store_log.specs.LogChanges.{with_group, with_fault, without_fault, MayWrite};
ghost use Rattle.store_log.specs.LogValues.{found_on};

use crate::notes::{Notes, first_notes, note_durable, note_tried};
use disk_model::Disk;
use graph_wal::{DiskFault, Wal};
use group_commit::Group;
use std::marker::Model;
use turn_board::ShowsLog;

/// The value of the log's turn: the log on its disk, the last durable epoch, the moment that the last append answered or
/// 0, the disk's count of faults at opening, and the count after the last fault or that at opening.
///
/// Contracts see the core's log part, which nobody holds, the log, and what was noted of it since it was opened.
#[derive(Drop)]
pub struct LogHome<D: Disk> {
    wal: Wal<D>,
    durable: u64,
    moment: u64,
    opening_count: u64,
    greatest: u64,
    notes: Notes,
}

impl<D: Disk> Model for LogHome<D> {
    ghost use Rattle.store_log.specs.LogValues.{LogValue};
    ghost use Rattle.store_log.specs.LogsKept.{log_value, IsKept};

    ghost Value = { LogValue D };

    ghost view = { log_value D.told };

    ghost invariant = { IsKept D.told D.moment D.images D.faults };
}

impl<D: Disk> ShowsLog for LogHome<D> {
    ghost log = { λ h. h.log };

    ghost moment = { λ h. D.moment h.wal.disk };
}

/// What the value of the log's turn leaves when it is closed.
#[derive(Drop)]
pub struct LogClosed<D: Disk> {
    /// The log, which has the records.
    pub wal: Wal<D>,
    /// The moment that the last append answered, or 0.
    pub last_moment: u64,
    /// Whether what stood behind the records was taken off at the end.
    pub mended: Result<(), DiskFault>,
}

impl<D: Disk> LogHome<D> {
    /// The value for a log on which no attempt stands, and whose last record is of this epoch. It takes no memory.
    pub fn opened(wal: Wal<D>, epoch: u64) -> LogHome<D>
        ghost origin: { Origin }
        requires begun { HasAppended D.told D.moment D.images wal origin.since origin.base [] [] }
        requires mended { IsMended wal }
        requires epoch { (epoch ≡ origin.epoch) × IfSome (D.told wal.disk) (λ _. epoch ≡ last_epoch 0 origin.base) }
        requires no_rest { origin.no_rest ≡ true → HasNoRest D.told wal }
        requires since { origin.since ≤ D.moment wal.disk }
        ensures log { result.log ≡ opened_part epoch (found_on D.told D.faults wal.disk origin) }
        ensures wal { result.wal ≡ wal }
        ensures written { result.written ≡ begun origin }
    {
        let length = wal.durable();
        let disk = wal.into_disk();
        let count = disk.faults();
        LogHome {
            wal: Wal::adopt(disk, length),
            durable: epoch,
            moment: 0,
            opening_count: count,
            greatest: count,
            notes: first_notes(),
        }
    }

    /// Whether no attempt stands. Before an append one that stands has to be taken off.
    pub fn mended(&self) -> bool
        ensures answer { result ≡ self.now.log.mended }
        ensures free { self.now.log.holder ≡ None }
    {
        self.wal.mended()
    }

    /// The last durable epoch.
    pub fn durable(&self) -> u64
        ensures { result ≡ self.now.log.durable }
    {
        self.durable
    }

    /// The moment that the last append answered, or 0.
    pub fn last_moment(&self) -> u64
        ensures { result ≡ self.now.log.moment }
    {
        self.moment
    }

    /// Takes off the attempt that stands. It takes no memory. Time: at most a write, a cut and their syncs.
    ///
    /// `DiskFault`: the attempt may stand still. The log part is then what a fail of any group makes of it.
    pub fn mend(&mut self) -> Result<(), DiskFault>
        requires stands { self.old.log.mended ≡ false }
        ensures mended { OnOk result (self.new.log ≡ without_fault self.old.log) }
        ensures failed { IfErr result (λ e. (rs : List Record) →
            self.new.log ≡ with_fault e.after rs self.old.log) }
        ensures disk_fault { IfErr result (λ e. (self.old.log.greatest ≤ e.before) ×
            IsFault (D.faults self.old.wal.disk) (D.faults self.new.wal.disk) e) }
        ensures written { self.new.written ≡ self.old.written }
        ensures in_time { self.new.log.moment ≤ D.moment self.new.wal.disk }
        ensures keeps { GoesOn D.told D.moment D.images D.faults self.old.wal.disk self.new.wal.disk }
    {
        match self.wal.mend() {
            Ok(()) => Ok(()),
            Err(fault) => {
                self.greatest = fault.after;
                Err(fault)
            }
        }
    }

    /// Appends a group as that of the epoch after the last durable one, and answers the moment from which it is durable.
    /// No attempt stands. It takes no memory. Time: the bytes of the group and two syncs, whatever the length of the log.
    ///
    /// `DiskFault`: the durable records are as before, and the group may stand behind them until the log is mended.
    pub fn append(&mut self, group: &Group) -> Result<u64, DiskFault>
        requires mended { self.old.log.mended ≡ true }
        requires members { 0 < length group.now }
        requires within { AreWithin group.now }
        requires epoch { self.old.log.durable ≤ number_end }
        requires lawful { MayWrite self.old.log (records_at (self.old.log.durable + 1) group.now) }
        ensures appended { IfOk result (λ m. self.new.log
            ≡ with_group m (records_at (self.old.log.durable + 1) group.now) self.old.log) }
        ensures moment { IfOk result (λ m. (self.old.log.moment ≤ m) × (m ≡ D.moment self.new.wal.disk)) }
        ensures failed { IfErr result (λ e. self.new.log
            ≡ with_fault e.after (records_at (self.old.log.durable + 1) group.now) self.old.log) }
        ensures disk_fault { IfErr result (λ e. (self.old.log.greatest ≤ e.before) ×
            IsFault (D.faults self.old.wal.disk) (D.faults self.new.wal.disk) e) }
        ensures written { IfOk result (λ m. self.new.written
            ≡ more_durable (records_at (self.old.log.durable + 1) group.now) m self.old.written) }
        ensures tried { OnErr result (self.new.written
            ≡ more_tried (records_at (self.old.log.durable + 1) group.now) self.old.written) }
        ensures in_time { self.new.log.moment ≤ D.moment self.new.wal.disk }
        ensures keeps { GoesOn D.told D.moment D.images D.faults self.old.wal.disk self.new.wal.disk }
    {
        let epoch = self.durable + 1;
        match self.wal.append_group(epoch, group) {
            Ok(moment) => {
                self.durable = epoch;
                self.moment = moment;
                note_durable(&mut self.notes, epoch, group, moment);
                Ok(moment)
            }
            Err(DiskFault { before, after }) => {
                self.greatest = after;
                note_tried(&mut self.notes, epoch, group);
                Err(DiskFault { before, after })
            }
        }
    }

    /// The log. It takes no memory.
    pub fn into_wal(self) -> Wal<D>
        ensures { result ≡ self.wal }
    {
        self.wal
    }

    /// Takes off the attempt that stands, if one does, and hands the log out. A crash at any moment since the log was
    /// opened leaves what was noted of it. It takes no memory.
    pub fn close(self) -> LogClosed<D>
        ensures crash { HasAppended D.told D.moment D.images result.wal
            self.written.origin.since self.written.origin.base self.written.groups self.written.failed }
        ensures free { self.log.holder ≡ None }
        ensures shown { self.log.disk ≡ disk_of (D.told self.wal.disk) self.log.mended self.written }
        ensures firm { self.log.firm ≡ firmness_of self.written.origin }
        ensures since { self.written.origin.since ≤ D.moment result.wal.disk }
        ensures epochs { IsInEpochs self.log.durable self.written }
        ensures last_moment { (result.last_moment ≡ self.log.moment)
            × AreDurableBy result.last_moment self.written.groups
            × (result.last_moment ≤ D.moment result.wal.disk) }
        ensures mended { OnOk result.mended (IsMended result.wal
            × IsSettled D.told D.moment D.images result.wal (durable_records self.written)) }
        ensures disk_fault { IfErr result.mended (λ e. (self.log.greatest ≤ e.before)
            × Rose e.before e.after × (e.after ≡ D.faults result.wal.disk)) }
        ensures counted { self.log.greatest ≤ D.faults result.wal.disk }
        ensures no_rest { OnOk result.mended (self.written.origin.no_rest ≡ true → HasNoRest D.told result.wal) }
        ensures keeps { GoesOn D.told D.moment D.images D.faults self.wal.disk result.wal.disk }
    {
        let last_moment = self.moment;
        let mut wal = self.wal;
        let mended = wal.mend();
        LogClosed {
            wal,
            last_moment,
            mended,
        }
    }
}
