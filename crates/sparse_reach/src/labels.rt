//! For each node the labels of the roots that lead to it.

ghost use Rattle.std.specs.Prelude.{◌≡◌, ℕ, ◌*◌, ◌<◌, ◌≤◌, ◌↔◌, IfOk};
ghost use Rattle.std.specs.List.{All};
ghost use Rattle.worklist.specs.Reached.{Reached};
ghost use Rattle.worklist.specs.Bits.{HasBit};
ghost use Rattle.worklist.specs.Roots.{IsRootOf};

use crate::met::Met;
use crate::rounds::batches;
use crate::table::SparseRows;
use std::alloc::Global;
use wasm_types::NoMemory;
use worklist::{Graph, Root};

/// A row for each node: which labels have a root that leads to it, itself included. Each node that is met is asked once for those that it leads to; the labels
/// then go along the edges in rounds, until none is new. It takes memory by the nodes and edges that are met.
pub fn reach_sparse<G: Graph>(
    alloc: Global,
    graph: &G,
    labels: usize,
    roots: &[Root],
) -> Result<SparseRows, NoMemory>
    requires { All (λ root. (root.label < labels) × (root.node < G.node_count graph.now)) roots.now }
    ensures rows { IfOk result (λ table. table.rows ≡ G.node_count graph.now) }
    ensures words { IfOk result (λ table. labels ≤ table.words * 64) }
    ensures exact { IfOk result (λ table. (x o : ℕ) → o < labels → (HasBit table.words table.bits x o ↔ Reached (IsRootOf roots.now o) (G.leads graph.now) x)) }
{
    let Met {
        nodes,
        starts,
        edges,
        ..
    } = Met::of(alloc, graph, roots)?;
    let labels = batches(alloc, nodes.len(), labels, &starts, &edges)?;
    let table = SparseRows::new(graph.node_count(), nodes, labels)?;
    Ok(table)
}
