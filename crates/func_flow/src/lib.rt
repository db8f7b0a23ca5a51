//! What each output of a function depends on, by the rows of the functions that it calls.
#![tactic(auto)]

mod bounds;
mod flow;
mod items;
mod made;
mod numbering;
mod roots;
mod rows;
mod runs;
mod search;
mod steps;
mod tables;

pub use flow::flow_rows;
