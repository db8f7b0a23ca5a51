//! Which definitions of a location reach a point of a body.
#![tactic(auto)]

mod back;
mod defs;
mod kept;
mod places;
mod search;
mod tables;
mod writers;

pub use kept::Reach;
pub use search::reaching;
pub use writers::Writers;
