//! The commands that run no script: making a log, dumping its graph, and checking it; and how each command of
//! the program may end.
#![tactic(auto)]

mod buffer;
mod checking;
mod dumping;
mod making;
mod status;

pub use buffer::BUFFER_ROOM;
pub use checking::check;
pub use dumping::dump;
pub use making::init;
pub use status::Status;
