//! Which functions of a module call which, directly, through the table, and by chains of calls; and which locations each touches and writes so.
#![tactic(auto)]

mod acts;
mod calls;
mod classes;
mod deeds;
mod edges;
mod hosts;
mod labels;
mod order;
mod pairs;
mod reached;
mod rounds;
mod shape;

pub use calls::{CallGraph, graph};
pub use reached::Reached;
