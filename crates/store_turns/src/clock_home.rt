//! The value of the clock's turn.

ghost use Rattle.std.specs.Prelude.{◌≡◌, false};
ghost use Rattle.store_turns.specs.IdleRows.{has_idle};
ghost use Rattle.graph_model.specs.Records.{IsGood};
ghost use Rattle.core_states.specs.Openings.{opened_clock};

use epoch_clock::EpochPart;
use graph_model::Base;
use reader_table::ReaderTable;
use std::alloc::Global;
use turn_board::ShowsClock;

/// The value of the clock's turn: the clock, and how many members the last group had that was collected from it, by which
/// the next leader goes. Its readers have a row open for each transaction that runs, and no other.
#[derive(Drop)]
pub struct ClockHome {
    pub part: EpochPart,
    pub grouped: usize,
    ghost busy: { has_idle part.readers ≡ false },
}

impl ShowsClock for ClockHome {
    ghost clock = { λ h. h.part.clock };
}

impl ClockHome {
    /// The clock that a run of the base starts with. It takes no memory.
    pub fn opened(alloc: Global, base: &Base) -> ClockHome
        requires good { IsGood base.now }
        ensures clock { result.part.clock ≡ opened_clock base.now }
    {
        ClockHome {
            part: EpochPart::new(alloc, base, ReaderTable::new(alloc)),
            grouped: 0,
        }
    }
}
