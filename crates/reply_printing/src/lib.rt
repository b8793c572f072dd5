//! The replies to a script, spelled by several threads and written in their order.
//!
//! The problem: workers that run a script side by side leave one thread to print the replies of all. The mechanism: the
//! replies are taken in rounds, a round is cut into parts, and each thread spells a part into memory of a fixed size; then
//! the parts are written one after another. A part that does not fit there, or for which there is no memory, is spelled
//! while it is written. So what is written is what one thread would write.
#![tactic(auto)]

mod parts;
mod printing;
mod rounds;
mod spelling;

pub use printing::print_side_by_side;
