//! Which nodes of a body a watched position depends on.
#![tactic(auto)]

mod closure;
mod flow;
mod items;
mod packed;
mod search;
mod spot;
mod tables;
mod walk;

pub use closure::{close, close_named};
