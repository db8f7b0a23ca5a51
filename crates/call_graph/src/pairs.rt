//! Sets of pairs of numbers.

ghost use Rattle.std.specs.Prelude.{◌≡◌, ℕ, ◌*◌, ◌<◌, ◌≤◌, ◌↔◌, IfOk, IsTrue, length};
ghost use Rattle.std.specs.List.{All, Contains};
ghost use Rattle.worklist.specs.Lists.{Has};
ghost use Rattle.worklist.specs.Reached.{Reached};
ghost use Rattle.worklist.specs.Roots.{IsRootOf};

use crate::rounds::spread_labels;
use std::alloc::Global;
use wasm_types::NoMemory;
use worklist::{BitRows, ListGraph, Root};

/// Pairs of a row and a column.
#[derive(Drop)]
pub(crate) struct Pairs {
    rows: usize,
    columns: usize,
    bits: BitRows,
    ghost tall: { rows ≤ bits.rows },
    ghost wide: { columns ≤ bits.words * 64 },
}

impl Pairs {
    ghost use Rattle.call_graph.specs.Pairs.{HasPair};

    /// Whether there is the pair: not where there is no such row or column.
    pub(crate) fn has(&self, row: usize, column: usize) -> bool
        ensures { IsTrue result ↔ HasPair self.now row column }
    {
        row < self.rows && column < self.columns && self.bits.has(row, column)
    }

    /// For each of the first nodes of a graph, so many of them, the labels whose roots lead to it. It fails only where an allocation is refused.
    pub(crate) fn of_labels(
        alloc: Global,
        rows: usize,
        columns: usize,
        graph: &ListGraph,
        order: &[usize],
        roots: &[Root],
    ) -> Result<Pairs, NoMemory>
        requires rows { rows ≤ length graph.now.next.items }
        requires order { (x : ℕ) → Contains order.now x ↔ (x < length graph.now.next.items) }
        requires roots { All (λ root. (root.label < columns) × (root.node < length graph.now.next.items)) roots.now }
        ensures { IfOk result (λ pairs. (x o : ℕ) → HasPair pairs x o
            ↔ ((x < rows) × ((o < columns) × Reached (IsRootOf roots.now o) (Has graph.now.next.items) x))) }
    {
        let bits = spread_labels(alloc, graph, order, columns, roots)?;
        Ok(Pairs {
            rows,
            columns,
            bits,
        })
    }
}
