//! Regions of a body that are entered through one point.
#![tactic(auto)]

mod entry;
mod far;
mod last;
mod near;
mod reached;
mod skips;

pub use entry::Entry;
pub use last::last_of;
pub use skips::Skips;
