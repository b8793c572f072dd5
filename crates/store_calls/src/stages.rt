//! What a session asks of how far its record is.

ghost use Rattle.std.specs.Prelude.{◌≡◌};
ghost use Rattle.core_states.specs.Transactions.{is_queued};

use core_states::Stage;

/// Whether the record waits for its outcome.
pub(crate) fn is_queued(stage: Stage) -> bool
    ensures { result ≡ is_queued stage }
{
    matches!(stage, Stage::Queued)
}
