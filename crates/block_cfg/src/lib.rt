//! The points of a body, and where they lead.
#![tactic(auto)]

mod before;
mod body;
mod cfg;
mod laws;
mod stops;
mod targets;
mod walk;

pub use body::edges;
pub use cfg::{Cfg, point_number, point_of_number};
pub use laws::law_bodies_have_points;
