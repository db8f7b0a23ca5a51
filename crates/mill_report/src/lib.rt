//! What the report of a large module tells: how much there is of it, and its lines.
#![tactic(auto)]

mod counts;
mod lines;

pub use counts::{count_inputs, count_positions};
pub use lines::{Figures, figures_text};
