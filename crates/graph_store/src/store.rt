//! The store, and the seats of its threads.

ghost use Rattle.std.specs.Prelude.{◌≡◌, ◌≤◌, ◌<◌, [], IfOk, IfErr, IsTrue};
ghost use Rattle.graph_model.specs.Records.{IsGood, list_most};
ghost use Rattle.core_states.specs.Openings.{lists_within};
ghost use Rattle.turn_board.specs.Views.{fresh_view, splitting, split_off, joining};
ghost use Rattle.turn_board.specs.Board.{known, Knowing, SameSeat};
ghost use Rattle.store_board.specs.Standing.{IsAtBoard};
ghost use Rattle.store_log.specs.LogValues.{found_on};
ghost use Rattle.store_log.specs.Written.{Origin};
ghost use Rattle.store_opening.specs.Opened.{start_with};
ghost use Rattle.graph_store.specs.Found.{IsFound};

use crate::pass::StorePass;
use disk_model::Disk;
use graph_model::Base;
use graph_wal::Wal;
use std::alloc::Global;
use store_board::{Hints, StoreBoard};
use store_log::LogHome;
use store_opening::{Opened, open_board};
use store_rows::ShardHome;

/// How a store is laid out: 1 to 64 shards, and how many bytes an edge log may have, 2^30 at most.
#[derive(Clone, Copy, Debug, PartialEq, Eq)]
pub struct Settings {
    pub shards: u32,
    pub log_most: u64,
}

/// The log of a store that was not opened for want of memory.
#[derive(Drop)]
pub struct Unopened<D: Disk> {
    pub wal: Wal<D>,
}

/// A store, which threads share by `&`. A thread that has a `Pass` makes the calls that take one; a thread that needs no
/// more than its seat at the board makes those of the crates below, and here `open_seat`, `split_seat`, `join_seats` and
/// `close_seat`.
pub struct Store<D: Disk> {
    pub board: StoreBoard<ShardHome, LogHome<D>>,
}

impl<D: Disk> Store<D> {
    /// A store over a base and its log, and the first seat. No list of the base is above `log_most`.
    ///
    /// Where there is no memory the log comes back as it was.
    ///
    /// Time: for each shard logarithmic for each vertex of the base, and in all one step for each edge and each byte.
    pub fn open_seat(
        alloc: Global,
        base: &Base,
        wal: Wal<D>,
        settings: Settings,
    ) -> Result<(Store<D>, StorePass<D>), Unopened<D>>
        ghost origin: { Origin }
        requires some { (0 < settings.shards) × (settings.shards ≤ 64) }
        requires most { settings.log_most ≤ list_most }
        requires good { IsGood base.now }
        requires lists { IsTrue (lists_within settings.log_most base.now.graph) }
        requires log { IsFound D.told D.moment D.images base.now wal origin }
        ensures stands { IfOk result (λ o. IsAtBoard o.0.board.turns o.0.board.shards o.1) }
        ensures pass { IfOk result (λ o. Knowing o.1 (fresh_view (start_with base.now settings.log_most
            (found_on D.told D.faults wal.disk origin) settings.shards) [] [] [])) }
        ensures unchanged { IfErr result (λ back. back.wal ≡ wal) }
    {
        let Settings { shards, log_most } = settings;
        let log = LogHome::opened(wal, base.epoch);
        match open_board(alloc, base, shards, log_most, log) {
            Ok(Opened { turns, pass }) => Ok((
                Store {
                    board: StoreBoard {
                        turns,
                        shards,
                        hints: Hints::new(),
                    },
                },
                pass,
            )),
            Err(log) => Err(Unopened {
                wal: log.into_wal(),
            }),
        }
    }

    /// A second seat, which knows what this one has seen. It takes no memory.
    pub fn split_seat(&self, pass: &mut StorePass<D>) -> StorePass<D>
        requires stands { IsAtBoard self.now.board.turns self.now.board.shards pass.old }
        ensures left { Knowing pass.new (splitting (known pass.old)) }
        ensures right { Knowing result (split_off (known pass.old)) }
        ensures stands { IsAtBoard self.now.board.turns self.now.board.shards pass.new
            × IsAtBoard self.now.board.turns self.now.board.shards result }
        ensures keeps { SameSeat pass.old pass.new }
    {
        self.board.turns.split(pass)
    }

    /// Makes one seat of two, which knows what both did: both knew the base of the store. It takes no memory.
    pub fn join_seats(&self, into: &mut StorePass<D>, from: StorePass<D>)
        requires stands { IsAtBoard self.now.board.turns self.now.board.shards into.old
            × IsAtBoard self.now.board.turns self.now.board.shards from }
        ensures both { Knowing into.new (joining (known into.old) (known from)) }
        ensures stands { IsAtBoard self.now.board.turns self.now.board.shards into.new }
        ensures base { (known from).base ≡ (known into.old).base }
        ensures keeps { SameSeat into.old into.new }
    {
        self.board.turns.join(into, from)
    }
}
