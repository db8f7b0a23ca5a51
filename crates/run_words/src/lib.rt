//! The words of a run: numbers, arguments, and the replies of the host (docs/COMMANDS.md, "The words of a run").
#![tactic(auto)]

mod numbers;
mod pieces;
mod replies;

pub use numbers::{parse_number, parse_value};
pub use replies::{ReplyEnd, parse_reply};
