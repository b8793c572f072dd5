//! A line of a script: the calls of a session that answer its request, with what the reply says of their events.
#![tactic(auto)]

mod changes;
mod ends;
mod line;
mod reads;
mod refused;

pub use changes::{del_line, drop_line, make_line, put_line, set_line};
pub use ends::{abort_line, begin_line, commit_line};
pub use line::run_line;
pub use reads::read_line;
