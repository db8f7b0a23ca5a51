//! Reachability over very many nodes, of which few are met: tables and marks take memory only for those.
#![tactic(auto)]

mod labels;
mod marks;
mod met;
mod rounds;
mod search;
mod table;
mod words;

pub use labels::reach_sparse;
pub use marks::Marks;
pub use search::reach_few;
pub use table::SparseRows;
