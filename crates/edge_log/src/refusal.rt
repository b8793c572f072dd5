//! Why a log takes no further entry.

ghost use Rattle.std.specs.Prelude.{◌≡◌};
ghost use Rattle.edge_log.specs.declared.refusal.LogRefusal.TheVariants.{NoMemory};

use graph_model::NoMemory;
use std::alloc::AllocError;

/// Why room for an entry is refused. The log has the content and the memory that it had.
#[derive(Clone, Copy, Debug, PartialEq, Eq)]
pub enum LogRefusal {
    /// Memory ran out.
    NoMemory = 1,
    /// With the entry, the log would pass its limit.
    LogFull = 2,
}

impl From<AllocError> for LogRefusal {
    ghost from_gives = { λ _ refusal. refusal ≡ NoMemory };

    fn from(_error: AllocError) -> LogRefusal {
        LogRefusal::NoMemory
    }
}

impl From<NoMemory> for LogRefusal {
    ghost from_gives = { λ _ refusal. refusal ≡ NoMemory };

    fn from(_error: NoMemory) -> LogRefusal {
        LogRefusal::NoMemory
    }
}
