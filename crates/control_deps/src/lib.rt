//! What the ifs and branches of a body decide about.
#![tactic(auto)]

mod deciders;
mod nest;
mod shadow;
mod spot;
mod straight;
mod walk;

pub use deciders::{Deciders, Nearest};
pub use nest::Nest;
pub use shadow::{decided_by, in_shadow};
