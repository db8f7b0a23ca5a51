//! All that the program does, over any source and sinks.
#![tactic(auto)]

mod deliver;
mod due;
mod refusals;
mod report;
mod status;
mod top;
mod words;

pub use status::Status;
pub use top::{law_one_answer, law_some_answer, wassail};
pub use words::{Command, Question, Request, WordsEnd, parse_words};
