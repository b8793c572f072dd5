//! The end of a store.

ghost use Rattle.std.specs.Prelude.{List};
ghost use Rattle.core_states.specs.Parts.{Parts};
ghost use Rattle.turn_board.specs.Board.{known};
ghost use Rattle.turn_board.specs.Views.{Done, IsLast};
ghost use Rattle.store_board.specs.Standing.{IsAtBoard};
ghost use Rattle.store_log.specs.Written.{Written};
ghost use Rattle.graph_store.specs.Closing.{IsClosed};
ghost use Rattle.graph_store.specs.Passes.{HoldsNone};

use crate::pass::{Pass, StorePass};
use crate::store::Store;
use disk_model::Disk;
use graph_model::{Moments, Records};
use graph_wal::DiskFault;
use store_board::StoreBoard;
use store_log::LogClosed;
use store_opening::let_go;
use turn_board::Homes;

/// What a store leaves when it is closed.
#[derive(Drop)]
pub struct Closed<D: Disk> {
    /// What committed, in the order of the epochs.
    pub records: Records,
    /// The moment of the disk from which each epoch behind the base's is durable.
    pub durable_at: Moments,
    /// The place behind the last gate of the log.
    pub durable_length: u64,
    /// The moment that the last append answered, or 0.
    pub last_moment: u64,
    /// Whether what a failed append left behind the records was taken off at the end.
    pub mended: Result<(), DiskFault>,
    /// The disk, which holds the log.
    pub disk: D,
}

impl<D: Disk> Store<D> {
    /// Closes the store, and takes off the failed append that stands behind the log's records, if one does. Every other
    /// pass was joined into this one, which holds no turn. It takes no memory.
    ///
    /// The pass is told of the one run of events that all passes did.
    ///
    /// Ends: the store, and all of its passes.
    pub fn close(self, pass: Pass<D>) -> Closed<D>
        requires stands { IsAtBoard self.board.turns self.board.shards pass.seat }
        requires last { IsLast (known pass.seat) }
        requires none { HoldsNone pass }
        ensures closed { (parts : Parts) × (run : List Done) × (written : Written)
            × IsClosed D.told D.moment D.images D.faults (known pass.seat) parts run written result }
    {
        self.close_seat(pass.into_seat())
    }

    /// Closes the store by the last seat, as `close` does by the last pass. It takes no memory.
    ///
    /// Ends: the store, and all of its seats.
    pub fn close_seat(self, pass: StorePass<D>) -> Closed<D>
        requires stands { IsAtBoard self.board.turns self.board.shards pass }
        requires last { IsLast (known pass) }
        ensures closed { (parts : Parts) × (run : List Done) × (written : Written)
            × IsClosed D.told D.moment D.images D.faults (known pass) parts run written result }
    {
        let Store { board } = self;
        let StoreBoard {
            turns,
            shards: _count,
            hints: _hints,
        } = board;
        let Homes { shards, clock, log } = turns.close(pass);
        let_go(shards);
        let (records, durable_at) = Box::into_inner(clock).part.into_ends();
        let LogClosed {
            wal,
            last_moment,
            mended,
        } = Box::into_inner(log.into_box()).close();
        let durable_length = wal.durable();
        Closed {
            records,
            durable_at,
            durable_length,
            last_moment,
            mended,
            disk: wal.into_disk(),
        }
    }
}
