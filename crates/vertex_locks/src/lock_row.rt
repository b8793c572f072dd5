//! The lock of one vertex, and the one call that takes it.

ghost use Rattle.std.specs.Prelude.{◌≡◌, ◌≢◌, Some};
ghost use Rattle.vertex_locks.specs.Rows.{answer_by_owner};

use crate::Look;

/// The lock of one vertex.
#[derive(Clone, Copy, Debug, PartialEq, Eq)]
pub struct LockRow {
    /// The transaction that owns the vertex.
    pub owner: Option<u64>,
    /// The epoch of the last commit that changed the vertex, or 0.
    pub committed: u64,
}

/// Tries to take the row for the transaction `tid`, whose snapshot is of the epoch `read`. It never waits.
pub fn look(row: &mut LockRow, tid: u64, read: u64) -> Look
    ensures answer { result ≡ answer_by_owner row.old.owner row.old.committed tid read }
    ensures owner { result ≡ Look.Taken → row.new ≡ record row.old { owner = Some tid } }
    ensures unchanged { result ≢ Look.Taken → row.new ≡ row.old }
{
    match row.owner {
        Some(owner) if owner == tid => Look::Taken,
        Some(owner) => Look::Held { owner },
        None if row.committed > read => Look::Conflict {
            committed: row.committed,
        },
        None => {
            row.owner = Some(tid);
            Look::Taken
        }
    }
}

#[cfg(test)]
mod tests {
    use super::*;

    #[test]
    fn a_row_is_taken_held_or_too_new(rt: HostRuntime) {
        let held = Look::Held { owner: 2 };
        let conflict = Look::Conflict { committed: 2 };
        let rows = [
            (None, 1, Look::Taken, Some(3)),
            (Some(3), 1, Look::Taken, Some(3)),
            (Some(2), 1, held, Some(2)),
            (None, 2, conflict, None),
            (Some(2), 2, held, Some(2)),
        ];
        for (owner, committed, answer, after) in rows {
            let mut row = LockRow { owner, committed };
            let got = look(&mut row, 3, 1);
            assert_eq!(rt; got, answer);
            assert_eq!(rt; row.owner, after);
            assert_eq!(rt; row.committed, committed);
        }
    }
}
