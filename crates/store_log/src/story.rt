//! What a caller can conclude of the log's value over many calls, one of which fails, by the clauses of the calls alone.

ghost use Rattle.std.specs.Prelude.{◌≡◌, ◌<◌, ◌++◌, ℕ, [], ◌∷◌, length, IfSome};
ghost use Rattle.graph_model.specs.Records.{Lawful};
ghost use Rattle.group_commit.specs.Members.{records_at};
ghost use Rattle.graph_wal.specs.Appends.{durable_group, tried, HasAppended};
ghost use Rattle.graph_wal.specs.Pieces.{AreWithin};

use crate::{LogClosed, LogHome};
use disk_model::Disk;
use graph_wal::Wal;
use group_commit::Group;

/// Makes a log on an empty disk, appends a group, then one whose append fails, mends, appends another in its place, and
/// closes. None where a call goes another way.
///
/// The log has the first group and the last, and a crash at any moment since it was made leaves what it may, the failed
/// group among it.
pub fn a_failed_group_is_replaced<D: Disk + Drop>(
    disk: D,
    first: &Group,
    failing: &Group,
    last: &Group,
) -> Option<LogClosed<D>>
    requires empty { IfSome (D.told disk) (λ b. b ≡ []) }
    requires members { (0 < length first.now) × (0 < length failing.now) × (0 < length last.now) }
    requires within { AreWithin first.now × AreWithin failing.now × AreWithin last.now }
    requires first { Lawful (records_at 1 first.now) }
    requires failing { Lawful (records_at 1 first.now ++ records_at 2 failing.now) }
    requires last { Lawful (records_at 1 first.now ++ records_at 2 last.now) }
    ensures { IfSome result (λ closed. (since : ℕ) × (moment : ℕ) ×
        HasAppended D.told D.moment D.images closed.wal since []
        (durable_group (records_at 1 first.now) moment ∷
        durable_group (records_at 2 last.now) closed.last_moment ∷ [])
        (tried 1 (records_at 2 failing.now) ∷ [])) }
{
    let wal = match Wal::make(disk) {
        Ok(wal) => wal,
        Err(_) => return None,
    };
    let mut home = LogHome::opened(wal, 0);
    match home.append(first) {
        Ok(_) => {}
        Err(_) => return None,
    }
    match home.append(failing) {
        Ok(_) => return None,
        Err(_) => {}
    }
    match home.mend() {
        Ok(()) => {}
        Err(_) => return None,
    }
    match home.append(last) {
        Ok(_) => {}
        Err(_) => return None,
    }
    Some(home.close())
}
