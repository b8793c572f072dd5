//! The text of scripts and of replies.
//!
//! A script is a list of lines, each ended by a newline, which the last one may lack. A line has a session,
//! the name of a request and its values, with one space between two words, as `3 put 17 2 40 00ff`. Numbers
//! are decimal without a leading zero, and a payload is lower-case hexadecimal, or `-` where it has no bytes.
//! `read_script` answers the script or the first bad place; `print_replies` prints a line for each reply,
//! behind the number of the line that it answers.
#![tactic(auto)]

mod last_payload;
mod laws;
mod print;
mod put;
mod read;
mod refusal;
mod reply;
mod request;
mod request_name;
mod word;
mod words;

pub use laws::{what_is_printed_is_read, what_is_read_is_within_the_limits};
pub use print::{print_replies, print_reply, print_reply_through, put_replies};
pub use put::{put_numbers, put_payload_word};
pub use read::read_script;
pub use refusal::TextRefusal;
pub use reply::{Replies, Reply};
pub use request::{Line, Request, Script};
pub use word::number;
