//! What is known of the functions that a body calls: the rows of each, what it writes, and the same of those that a call through the table may find.
#![tactic(auto)]

mod callees;
mod classes;
mod funcs;
mod instrs;
mod locs;
mod outputs;

pub use callees::Called;
pub use classes::TargetTable;
pub use instrs::Whom;
pub use outputs::{Made, input_of};
