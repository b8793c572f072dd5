//! The calls of a session that need no log: each is a list of events of the session's actor, one after another, each under
//! a turn of its own.
#![tactic(auto)]

mod beginning;
mod changes;
mod changing;
mod giving_up;
mod making;
mod opening;
mod reading;
mod refusal;

pub use beginning::{Begun, begin, begun_by};
pub use changes::{del_edge, drop_vertex, put_edge, set_vertex};
pub use changing::change;
pub use giving_up::{give_up, next_taken};
pub use making::new_vertex;
pub use opening::{close_session, open_session};
pub use reading::read;
pub use refusal::Refusal;
