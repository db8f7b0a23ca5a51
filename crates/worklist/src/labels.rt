//! For each node the labels of the roots that lead to it.

ghost use Rattle.std.specs.Prelude.{◌≡◌, ℕ, ◌*◌, ◌<◌, ◌≤◌, ◌↔◌, IfOk, length, []};
ghost use Rattle.std.specs.List.{All, Contains};
ghost use Rattle.worklist.specs.Reached.{Reached};
ghost use Rattle.worklist.specs.Bits.{HasBit};
ghost use Rattle.worklist.specs.Spreads.{IsQueue, Spreads};
ghost use Rattle.worklist.specs.Roots.{IsRootOf};

use crate::bits::BitRows;
use crate::graph::Graph;
use crate::queue::Queue;
use std::alloc::Global;
use wasm_types::NoMemory;

/// A node at which a label begins.
#[derive(Clone, Copy, Debug, PartialEq, Eq)]
pub struct Root {
    pub label: usize,
    pub node: usize,
}

/// The labels so far, and the nodes that wait to give theirs on.
#[derive(Drop)]
struct Labelling {
    table: BitRows,
    queue: Queue,
}

impl Labelling {
    /// No node has a label.
    fn begin(alloc: Global, count: usize, labels: usize) -> Result<Labelling, NoMemory>
        ensures rows { IfOk result (λ search. search.table.rows ≡ count) }
        ensures words { IfOk result (λ search. labels ≤ search.table.words * 64) }
        ensures none { IfOk result (λ search. (x o : ℕ) → HasBit search.table.words search.table.bits.items x o → ⊥) }
        ensures ready { IfOk result (λ search. IsQueue count search.queue.waits.items search.queue.nodes.items) }
        ensures empty { IfOk result (λ search. search.queue.nodes.items ≡ []) }
    {
        Ok(Labelling {
            table: BitRows::new(alloc, count, labels)?,
            queue: Queue::new(alloc, count)?,
        })
    }

    /// Gives a node a label.
    fn start(&mut self, label: usize, node: usize) -> Result<(), NoMemory>
        requires label { label < self.old.table.words * 64 }
        requires node { node < self.old.table.rows }
        requires ready { IsQueue self.old.table.rows self.old.queue.waits.items self.old.queue.nodes.items }
        ensures rows { IfOk result (λ _. self.new.table.rows ≡ self.old.table.rows) }
        ensures words { IfOk result (λ _. self.new.table.words ≡ self.old.table.words) }
        ensures ready { IfOk result (λ _. IsQueue self.old.table.rows self.new.queue.waits.items self.new.queue.nodes.items) }
        ensures spreads { IfOk result (λ _. Spreads self.old.table.words (λ x o. (x ≡ node) × (o ≡ label)) self.old.table.bits.items self.new.table.bits.items self.old.queue.nodes.items self.new.queue.nodes.items) }
    {
        let grew = self.table.insert(node, label);
        self.table.bound();
        if grew {
            self.queue.put(node)?;
        }
        Ok(())
    }

    /// Gives the labels of a node to another.
    fn spread(&mut self, from: usize, into: usize) -> Result<(), NoMemory>
        requires from { from < self.old.table.rows }
        requires into { into < self.old.table.rows }
        requires ready { IsQueue self.old.table.rows self.old.queue.waits.items self.old.queue.nodes.items }
        ensures rows { IfOk result (λ _. self.new.table.rows ≡ self.old.table.rows) }
        ensures words { IfOk result (λ _. self.new.table.words ≡ self.old.table.words) }
        ensures ready { IfOk result (λ _. IsQueue self.old.table.rows self.new.queue.waits.items self.new.queue.nodes.items) }
        ensures spreads { IfOk result (λ _. Spreads self.old.table.words (λ x o. (x ≡ into) × HasBit self.old.table.words self.old.table.bits.items from o) self.old.table.bits.items self.new.table.bits.items self.old.queue.nodes.items self.new.queue.nodes.items) }
    {
        let grew = self.table.merge(from, into);
        self.table.bound();
        if grew {
            self.queue.put(into)?;
        }
        Ok(())
    }

    /// Gives each root its label.
    fn start_each(&mut self, roots: &[Root]) -> Result<(), NoMemory>
        requires roots { All (λ root. (root.label < self.old.table.words * 64) × (root.node < self.old.table.rows)) roots.now }
        requires ready { IsQueue self.old.table.rows self.old.queue.waits.items self.old.queue.nodes.items }
        ensures rows { IfOk result (λ _. self.new.table.rows ≡ self.old.table.rows) }
        ensures words { IfOk result (λ _. self.new.table.words ≡ self.old.table.words) }
        ensures ready { IfOk result (λ _. IsQueue self.old.table.rows self.new.queue.waits.items self.new.queue.nodes.items) }
        ensures spreads { IfOk result (λ _. Spreads self.old.table.words (λ x o. IsRootOf roots.now o x) self.old.table.bits.items self.new.table.bits.items self.old.queue.nodes.items self.new.queue.nodes.items) }
    {
        for root in roots {
            self.start(root.label, root.node)?;
        }
        Ok(())
    }

    /// Gives the labels of a node to others.
    fn spread_each(&mut self, from: usize, nodes: &[usize]) -> Result<(), NoMemory>
        requires from { from < self.old.table.rows }
        requires nodes { All (λ node. node < self.old.table.rows) nodes.now }
        requires ready { IsQueue self.old.table.rows self.old.queue.waits.items self.old.queue.nodes.items }
        ensures rows { IfOk result (λ _. self.new.table.rows ≡ self.old.table.rows) }
        ensures words { IfOk result (λ _. self.new.table.words ≡ self.old.table.words) }
        ensures ready { IfOk result (λ _. IsQueue self.old.table.rows self.new.queue.waits.items self.new.queue.nodes.items) }
        ensures spreads { IfOk result (λ _. Spreads self.old.table.words (λ x o. Contains nodes.now x × HasBit self.old.table.words self.old.table.bits.items from o) self.old.table.bits.items self.new.table.bits.items self.old.queue.nodes.items self.new.queue.nodes.items) }
    {
        for node in nodes {
            self.spread(from, *node)?;
        }
        Ok(())
    }
}

/// A row for each node: which labels have a root that leads to it, itself included. A node is expanded anew when its row has grown. It fails only where memory is
/// refused.
pub fn reach_labels<G: Graph>(
    alloc: Global,
    graph: &G,
    labels: usize,
    roots: &[Root],
) -> Result<BitRows, NoMemory>
    requires { All (λ root. (root.label < labels) × (root.node < G.node_count graph.now)) roots.now }
    ensures rows { IfOk result (λ table. table.rows ≡ G.node_count graph.now) }
    ensures words { IfOk result (λ table. labels ≤ table.words * 64) }
    ensures exact { IfOk result (λ table. (x o : ℕ) → o < labels → (HasBit table.words table.bits.items x o ↔ Reached (IsRootOf roots.now o) (G.leads graph.now) x)) }
{
    let mut search = Labelling::begin(alloc, graph.node_count(), labels)?;
    search.start_each(roots)?;
    let mut next = Vec::new(alloc);
    while let Some(node) = search.queue.take() {
        next.clear();
        graph.push_next(node, &mut next)?;
        search.spread_each(node, &next)?;
    }
    let Labelling { table, queue: _ } = search;
    Ok(table)
}
