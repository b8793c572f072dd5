//! A refusal as a reply.

ghost use Rattle.std.specs.Prelude.{◌≡◌};
ghost use Rattle.store_lines.specs.Lines.{refused_reply};

use request_text::Reply;
use store_sessions::Refusal;

/// How a refusal is answered.
pub fn refused(refusal: Refusal) -> Reply
    ensures { result ≡ refused_reply refusal }
{
    match refusal {
        Refusal::NoMemory => Reply::NoMemory,
        Refusal::Held { vertex, holder, .. } => Reply::Held {
            v: vertex,
            tid: holder,
        },
        Refusal::Conflict {
            vertex,
            committed,
            ..
        } => Reply::Conflict {
            v: vertex,
            epoch: committed,
        },
        Refusal::NoVertex => Reply::NoVertex,
        Refusal::TxnFull => Reply::TxnFull,
        Refusal::LogFull => Reply::LogFull,
        Refusal::LogFault { before, after } => Reply::LogFault { before, after },
        Refusal::Spent => Reply::Spent,
        Refusal::Busy { .. } => Reply::NoMemory,
    }
}
