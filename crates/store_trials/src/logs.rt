//! The logs of boards: one that has no disk, and a new one on a disk over memory.

ghost use Rattle.std.specs.Prelude.{◌≡◌, ◌≤◌, [], None, IfSome};
ghost use Rattle.disk_model.specs.Memory.{bytes_of};
ghost use Rattle.core_states.specs.LogParts.{opened_part};
ghost use Rattle.board_trials.specs.Papers.{paper_log, paper_time};
ghost use Rattle.store_trials.specs.AtDesk.{found_on_paper, found_new};

use board_trials::Paper;
use disk_model::MemDisk;
use graph_model::Base;
use graph_wal::Wal;
use store_log::LogHome;

/// A log that has no disk, with all epochs of the base.
pub fn paper_of(base: &Base) -> Paper
    ensures log { paper_log result ≡ opened_part base.now.epoch found_on_paper }
    ensures in_time { (paper_log result).moment ≤ paper_time result }
{
    Paper {
        durable: base.epoch,
        moment: 0,
        time: 0,
    }
}

/// A log without records on an empty disk; None where the disk failed.
pub fn new_log(disk: MemDisk) -> Option<LogHome<MemDisk>>
    requires empty { bytes_of disk ≡ [] }
    ensures log { IfSome result (λ home. home.log ≡ opened_part 0 (found_new home.wal.disk)) }
{
    match Wal::make(disk) {
        Ok(wal) => Some(LogHome::opened(wal, 0)),
        Err(_) => None,
    }
}
