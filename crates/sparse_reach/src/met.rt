//! The nodes that a search meets, and the edges between them.

ghost use Rattle.std.specs.Prelude.{◌≡◌, ◌++◌, ◌∷◌, ℕ, ◌<◌, ◌≤◌, IfOk, IsTrue, length, []};
ghost use Rattle.std.specs.List.{All, Contains};
ghost use Rattle.worklist.specs.Roots.{IsRootOf};
ghost use Rattle.sparse_reach.specs.Met as spec;

use indexmap::IndexSet;
use std::alloc::Global;
use wasm_types::NoMemory;
use worklist::{Graph, Root};

/// An edge between nodes that were met, by their numbers.
#[derive(Clone, Copy, Debug, PartialEq, Eq)]
pub(crate) struct Edge {
    pub(crate) from: u32,
    pub(crate) to: u32,
}

/// The nodes that were met, and the edges out of those that don't wait. The number of a node is its place in the order in which nodes were met.
#[derive(Drop)]
pub(crate) struct Met {
    pub(crate) nodes: IndexSet<usize>,
    /// The numbers of nodes that were not asked yet for those that they lead to.
    waiting: Vec<u32>,
    /// The roots, by the numbers of their nodes.
    pub(crate) starts: Vec<Root>,
    pub(crate) edges: Vec<Edge>,
}

/// The number of a node, which is met now if it wasn't before, and waits then.
fn number_of(
    nodes: &mut IndexSet<usize>,
    waiting: &mut Vec<u32>,
    node: usize,
) -> Result<u32, NoMemory>
    ensures { IfOk result (λ number. spec.MeetsOne nodes.old.keys nodes.new.keys waiting.old.items waiting.new.items node number) }
{
    let Ok((number, new)) = nodes.insert_full(node) else {
        return Err(NoMemory);
    };
    let number = u32::try_from(number).map_err(|_| NoMemory)?;
    if new {
        waiting.push(number).map_err(|_| NoMemory)?;
    }
    Ok(number)
}

impl Met {
    fn start(&mut self, root: Root) -> Result<(), NoMemory>
        ensures edges { IfOk result (λ _. self.new.edges.items ≡ self.old.edges.items) }
        ensures starts { IfOk result (λ _. (k : ℕ) × (
            spec.MeetsOne self.old.nodes.keys self.new.nodes.keys self.old.waiting.items self.new.waiting.items root.node k × (self.new.starts.items ≡ self.old.starts.items ++ record { label = root.label; node = k } ∷ []))) }
    {
        let node = number_of(&mut self.nodes, &mut self.waiting, root.node)? as usize;
        let label = root.label;
        self.starts
            .push(Root { label, node })
            .map_err(|_| NoMemory)?;
        Ok(())
    }

    /// The nodes of the roots alone.
    fn begin(alloc: Global, roots: &[Root]) -> Result<Met, NoMemory>
        ensures edges { IfOk result (λ met. met.edges.items ≡ []) }
        ensures starts { IfOk result (λ met. spec.AreStarts roots.now met.nodes.keys met.waiting.items met.starts.items) }
    {
        let mut met = Met {
            nodes: IndexSet::new(alloc),
            waiting: Vec::new(alloc),
            starts: Vec::new(alloc),
            edges: Vec::new(alloc),
        };
        for root in roots {
            met.start(*root)?;
        }
        Ok(met)
    }

    /// Whether the edge that was listed last is this one.
    fn was_last(&self, from: u32, node: usize) -> bool
        ensures { IsTrue result → (k : ℕ) × (spec.IsNumber self.now.nodes.keys node k × spec.Listed self.now.edges.items from k) }
    {
        let Some(last) = self.edges.last() else {
            return false;
        };
        last.from == from && self.nodes.as_slice().get(last.to as usize) == Some(&node)
    }

    /// Lists an edge, unless it was listed last: a node that follows itself in a list is looked up once.
    fn lead(&mut self, from: u32, node: usize) -> Result<(), NoMemory>
        ensures starts { IfOk result (λ _. self.new.starts.items ≡ self.old.starts.items) }
        ensures leads { IfOk result (λ _. spec.Leads from (λ x. x ≡ node) self.old.nodes.keys self.new.nodes.keys self.old.waiting.items self.new.waiting.items
            self.old.edges.items self.new.edges.items) }
    {
        if self.was_last(from, node) {
            return Ok(());
        }
        let to = number_of(&mut self.nodes, &mut self.waiting, node)?;
        self.edges.push(Edge { from, to }).map_err(|_| NoMemory)?;
        Ok(())
    }

    fn lead_each(&mut self, from: u32, nodes: &[usize]) -> Result<(), NoMemory>
        ensures starts { IfOk result (λ _. self.new.starts.items ≡ self.old.starts.items) }
        ensures leads { IfOk result (λ _. spec.Leads from (Contains nodes.now) self.old.nodes.keys self.new.nodes.keys
            self.old.waiting.items self.new.waiting.items self.old.edges.items self.new.edges.items) }
    {
        for node in nodes {
            self.lead(from, *node)?;
        }
        Ok(())
    }

    /// The node of a number.
    fn node(&self, number: u32) -> usize
        requires { number < length self.now.nodes.keys }
        ensures { spec.IsNumber self.now.nodes.keys result number }
    {
        self.nodes.as_slice()[number as usize]
    }

    /// All that the roots lead to. Each node is asked once for those that it leads to.
    pub(crate) fn of<G: Graph>(alloc: Global, graph: &G, roots: &[Root]) -> Result<Met, NoMemory>
        requires { All (λ root. root.node < G.node_count graph.now) roots.now }
        ensures starts { IfOk result (λ met. All (λ root. root.node < length met.nodes.keys) met.starts.items) }
        ensures edges { IfOk result (λ met. All (λ edge. (edge.from < length met.nodes.keys) × (edge.to < length met.nodes.keys)) met.edges.items) }
        ensures exact { IfOk result (λ met. (o : ℕ) → spec.ByNumber met.nodes.keys (IsRootOf roots.now o) (G.leads graph.now)
            (IsRootOf met.starts.items o) (spec.Listed met.edges.items)) }
    {
        let mut met = Met::begin(alloc, roots)?;
        let mut next = Vec::new(alloc);
        // As many turns as there are numbers.
        for _turn in 0..u32::MAX {
            let Some(number) = met.waiting.pop() else {
                return Ok(met);
            };
            next.clear();
            graph.push_next(met.node(number), &mut next)?;
            met.lead_each(number, &next)?;
        }
        Err(NoMemory)
    }
}
