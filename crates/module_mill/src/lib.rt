//! A large valid module from a number, to try the analyses on.
#![tactic(auto)]

mod code;
mod whole;

pub use whole::{MOST_MILLED, mill};
