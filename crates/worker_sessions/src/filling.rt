//! The sessions of workers, before they run.

ghost use Rattle.std.specs.Prelude.{◌<◌, ◌+◌, ◌^◌, IfOk};
ghost use Rattle.worker_sessions.specs.Sessions.{AreReady, IsSpaced, indices};

use graph_model::NoMemory;
use std::alloc::Global;
use store_turns::Session;

/// The sessions with the numbers first, first + step and so on, all that are below a limit. They have done nothing.
pub fn sessions_from(
    alloc: Global,
    first: u64,
    step: u64,
    limit: u64,
) -> Result<Vec<Session>, NoMemory>
    requires step { 0 < step }
    requires room { limit + step < 2 ^ 64 }
    ensures ready { IfOk result (λ v. AreReady v.items) }
    ensures spaced { IfOk result (λ v. IsSpaced first step limit (indices v.items)) }
{
    let mut sessions = Vec::new(alloc);
    let mut index = first;
    while index < limit {
        sessions.push(Session::new(index))?;
        index += step;
    }
    Ok(sessions)
}
