//! Instances of modules: what a run needs besides the module, and how it begins.
#![tactic(auto)]

mod constants;
mod elems;
mod instance;
mod segments;
mod spaces;
mod start;

pub use instance::Instance;
pub use start::{InstEnd, instantiate};
