//! Least sets that are closed under the edges of a graph, and tables that grow in rounds. Edges are enumerated by code, each node's when the node is met.
#![tactic(auto)]

mod bits;
mod graph;
mod labels;
mod list_graph;
mod queue;
mod rounds;
mod search;
mod searcher;

pub use bits::BitRows;
pub use graph::Graph;
pub use labels::{Root, reach_labels};
pub use list_graph::ListGraph;
pub use rounds::{Settles, settle};
pub use search::reach;
pub use searcher::Searcher;
