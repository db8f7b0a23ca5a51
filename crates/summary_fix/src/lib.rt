//! The least table of summaries, and what its rows leave out of two runs.
#![tactic(auto)]

mod imports;
mod laws;
mod least;
mod rounds;
mod start;

pub use laws::{law_settled_is_least, law_two_runs};
pub use least::{summarise, summarise_from};
