//! What one thread has of a store.

ghost use Rattle.turn_board.specs.Board.{known};
ghost use Rattle.store_turns.specs.Seeing.{HasSeen};

use disk_model::Disk;
use store_board::Spot;
use store_log::LogHome;
use store_rows::ShardHome;

/// What one thread knows of a store. It has no bytes.
pub type StorePass<D> = store_board::StorePass<ShardHome, LogHome<D>>;

/// A turn that a pass holds, with its value.
pub(crate) struct HeldTurn<D: Disk> {
    pub(crate) turn: u32,
    pub(crate) value: Spot<ShardHome, LogHome<D>>,
}

/// What one thread has of a store: what it knows, the greatest epoch that it was answered, and the turn that it holds, if
/// any. It has seen that epoch visible.
pub struct Pass<D: Disk> {
    pub seat: StorePass<D>,
    pub(crate) told: u64,
    pub(crate) held: Option<HeldTurn<D>>,
    ghost heard: { HasSeen told (known seat) },
}

impl<D: Disk> Pass<D> {
    ghost use Rattle.std.specs.Prelude.{◌≡◌, IfSome};
    ghost use Rattle.graph_store.specs.Passes.{told_epoch, has_turn, HoldsNone, Hears};

    /// The greatest epoch that a begin or a commit on this pass has answered; where none was greater than the base's, that.
    pub fn told(&self) -> u64
        ensures { result ≡ told_epoch self.now }
    {
        self.told
    }

    /// Whether the pass holds a turn.
    pub fn holds_turn(&self) -> bool
        ensures { result ≡ has_turn self.now }
    {
        self.held.is_some()
    }

    /// What the thread knows, alone. The pass holds no turn.
    ///
    /// Ends: the pass, and what it was told.
    pub fn into_seat(self) -> StorePass<D>
        requires none { HoldsNone self }
        ensures { result ≡ self.seat }
    {
        let Pass {
            seat,
            told: _told,
            held,
        } = self;
        let None = held else { unreachable!() };
        seat
    }

    // A pass that was told this epoch, which it has seen, and holds no turn.
    pub(crate) fn new(seat: StorePass<D>, told: u64) -> Pass<D>
        requires heard { HasSeen told (known seat) }
        ensures seat { result.seat ≡ seat }
        ensures told { told_epoch result ≡ told }
        ensures none { HoldsNone result }
    {
        Pass {
            seat,
            told,
            held: None,
        }
    }

    // It is answered this epoch, which it has seen, or none.
    pub(crate) fn hear(&mut self, epoch: Option<u64>)
        requires seen { IfSome epoch (λ e. HasSeen e (known self.old.seat)) }
        ensures told { Hears epoch self.old self.new }
        ensures seat { self.new.seat ≡ self.old.seat }
    {
        if let Some(epoch) = epoch {
            self.told = self.told.max(epoch);
        }
    }
}
