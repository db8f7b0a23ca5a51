//! Rows of labels that nodes give on along edges, until no row grows.

ghost use Rattle.std.specs.Prelude.{◌≡◌, ℕ, ◌*◌, ◌^◌, ◌<◌, ◌≤◌, ◌↔◌, IfOk, IsTrue, false, length, sum};
ghost use Rattle.std.specs.List.{All, Contains};
ghost use Rattle.worklist.specs.Bits.{HasBit};
ghost use Rattle.worklist.specs.Lists.{Has};
ghost use Rattle.worklist.specs.Reached.{Reached};
ghost use Rattle.worklist.specs.Roots.{IsRootOf};
ghost use Rattle.call_graph.specs.Rounds.{IsClosed, Spreads};

use std::alloc::Global;
use wasm_types::NoMemory;
use worklist::{BitRows, ListGraph, Root};

/// Gives the labels of a node to others: true where one was new.
fn give(table: &mut BitRows, node: usize, others: &[usize]) -> bool
    requires node { node < table.old.rows }
    requires others { All (λ x. x < table.old.rows) others.now }
    ensures rows { table.new.rows ≡ table.old.rows }
    ensures words { table.new.words ≡ table.old.words }
    ensures spreads { Spreads table.old.words (λ y x. (y ≡ node) × Contains others.now x) table.old.bits.items table.new.bits.items }
    ensures closed { result ≡ false → IsClosed table.old.words (λ y x. (y ≡ node) × Contains others.now x) table.new.bits.items }
    ensures same { result ≡ false → table.new.bits.items ≡ table.old.bits.items }
    ensures rose { IsTrue result → sum table.old.bits.items < sum table.new.bits.items }
{
    let mut grew = false;
    for other in others {
        if table.merge(node, *other) {
            grew = true;
        }
    }
    grew
}

/// Gives the labels of each node, in their order, to those that it leads to: true where one was new.
fn give_each(table: &mut BitRows, graph: &ListGraph, order: &[usize]) -> bool
    requires rows { table.old.rows ≡ length graph.now.next.items }
    requires order { All (λ y. y < length graph.now.next.items) order.now }
    ensures rows { table.new.rows ≡ table.old.rows }
    ensures words { table.new.words ≡ table.old.words }
    ensures spreads { Spreads table.old.words (Has graph.now.next.items) table.old.bits.items table.new.bits.items }
    ensures closed { result ≡ false → IsClosed table.old.words (λ y x. Contains order.now y × Has graph.now.next.items y x) table.new.bits.items }
    ensures rose { IsTrue result → sum table.old.bits.items < sum table.new.bits.items }
{
    let mut grew = false;
    for node in order {
        if give(table, *node, &graph.next[*node]) {
            grew = true;
        }
    }
    grew
}

/// Gives the labels of each node to all nodes that it leads to, one after another. In an order in which each node stands before those that it leads to, it goes over
/// them twice, and once more for each edge of a path that leads back.
fn give_all(table: &mut BitRows, graph: &ListGraph, order: &[usize])
    requires rows { table.old.rows ≡ length graph.now.next.items }
    requires order { (x : ℕ) → Contains order.now x ↔ (x < length graph.now.next.items) }
    ensures rows { table.new.rows ≡ table.old.rows }
    ensures words { table.new.words ≡ table.old.words }
    ensures spreads { Spreads table.old.words (Has graph.now.next.items) table.old.bits.items table.new.bits.items }
    ensures closed { IsClosed table.old.words (Has graph.now.next.items) table.new.bits.items }
{
    loop {
        let grew = give_each(table, graph, order);
        table.bound();
        if !grew {
            return;
        }
    }
}

/// So many rows, in which each root has its label.
fn begin(alloc: Global, rows: usize, labels: usize, roots: &[Root]) -> Result<BitRows, NoMemory>
    requires { All (λ root. (root.label < labels) × (root.node < rows)) roots.now }
    ensures rows { IfOk result (λ table. table.rows ≡ rows) }
    ensures words { IfOk result (λ table. labels ≤ table.words * 64) }
    ensures exact { IfOk result (λ table. (x o : ℕ) → o < table.words * 64 → HasBit table.words table.bits.items x o ↔ IsRootOf roots.now o x) }
{
    let mut table = BitRows::new(alloc, rows, labels)?;
    for root in roots {
        table.insert(root.node, root.label);
    }
    Ok(table)
}

/// A row for each node: which labels have a root that leads to it, itself included. The order has all nodes, best each before those that it leads to. It fails only
/// where an allocation is refused.
pub(crate) fn spread_labels(
    alloc: Global,
    graph: &ListGraph,
    order: &[usize],
    labels: usize,
    roots: &[Root],
) -> Result<BitRows, NoMemory>
    requires order { (x : ℕ) → Contains order.now x ↔ (x < length graph.now.next.items) }
    requires roots { All (λ root. (root.label < labels) × (root.node < length graph.now.next.items)) roots.now }
    ensures rows { IfOk result (λ table. table.rows ≡ length graph.now.next.items) }
    ensures words { IfOk result (λ table. labels ≤ table.words * 64) }
    ensures exact { IfOk result (λ table. (x o : ℕ) → o < labels
        → (HasBit table.words table.bits.items x o ↔ Reached (IsRootOf roots.now o) (Has graph.now.next.items) x)) }
{
    let mut table = begin(alloc, graph.next.len(), labels, roots)?;
    give_all(&mut table, graph, order);
    Ok(table)
}
