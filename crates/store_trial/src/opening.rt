//! A store over a new log.

ghost use Rattle.std.specs.Prelude.{◌≡◌, ◌<◌, ◌≤◌, [], IfSome};
ghost use Rattle.turn_board.specs.Board.{known};
ghost use Rattle.turn_board.specs.Views.{IsLast};
ghost use Rattle.store_trial.specs.Hands.{IsFree};

use disk_model::Disk;
use graph_model::LIST_MOST;
use graph_store::{Settings, Store, StorePass, empty_base};
use graph_wal::Wal;
use std::alloc::Global;

/// A store of so many shards over a new log on an empty disk, and its first pass; None where the disk failed or memory
/// ran out.
pub fn open_new<D: Disk + Drop>(
    alloc: Global,
    disk: D,
    shards: u32,
) -> Option<(Store<D>, StorePass<D>)>
    requires empty { IfSome (D.told disk) (λ b. b ≡ []) }
    requires some { (0 < shards) × (shards ≤ 64) }
    ensures free { IfSome result (λ o. IsFree o.0.board.turns o.0.board.shards o.1) }
    ensures last { IfSome result (λ o. IsLast (known o.1)) }
{
    let Ok(wal) = Wal::make(disk) else {
        return None;
    };
    let base = empty_base(alloc);
    let settings = Settings {
        shards,
        log_most: LIST_MOST,
    };
    let Ok((store, pass)) = Store::open_seat(alloc, &base, wal, settings) else {
        return None;
    };
    Some((store, pass))
}
