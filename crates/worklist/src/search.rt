//! The nodes that roots lead to.

ghost use Rattle.std.specs.Prelude.{◌≡◌, ℕ, ◌<◌, ◌≤◌, ◌↔◌, IfOk, length, [], false};
ghost use Rattle.std.specs.List.{All, Contains};
ghost use Rattle.worklist.specs.Reached.{Reached};
ghost use Rattle.worklist.specs.Search.{IsClear, IsMarked, Lists, Meets};

use crate::graph::Graph;
use std::alloc::Global;
use wasm_types::NoMemory;

/// Which nodes were met, as marks and as a list, and which of them still wait.
#[derive(Drop)]
pub(crate) struct Search {
    pub(crate) marks: Vec<bool>,
    pub(crate) waiting: Vec<usize>,
    pub(crate) met: Vec<usize>,
}

impl Search {
    /// No node is met, of so many.
    pub(crate) fn new(alloc: Global, count: usize) -> Result<Search, NoMemory>
        ensures length { IfOk result (λ search. length search.marks.items ≡ count) }
        ensures clear { IfOk result (λ search. IsClear search.marks.items) }
        ensures waiting { IfOk result (λ search. search.waiting.items ≡ []) }
        ensures met { IfOk result (λ search. search.met.items ≡ []) }
    {
        let marks = vec![in alloc; false; count].map_err(|_| NoMemory)?;
        Ok(Search {
            marks,
            waiting: Vec::new(alloc),
            met: Vec::new(alloc),
        })
    }

    /// Marks a node, which waits if it is new.
    fn meet(&mut self, node: usize) -> Result<(), NoMemory>
        requires { node < length self.old.marks.items }
        ensures length { length self.new.marks.items ≡ length self.old.marks.items }
        ensures meets { IfOk result (λ _. Meets (λ x. x ≡ node) self.old.marks.items self.new.marks.items self.old.waiting.items self.new.waiting.items) }
        // Also where memory was refused.
        ensures lists { Lists self.old.marks.items self.old.met.items → Lists self.new.marks.items self.new.met.items }
    {
        if self.marks[node] {
            return Ok(());
        }
        self.waiting.push(node).map_err(|_| NoMemory)?;
        self.met.push(node).map_err(|_| NoMemory)?;
        self.marks[node] = true;
        Ok(())
    }

    fn meet_each(&mut self, nodes: &[usize]) -> Result<(), NoMemory>
        requires { All (λ node. node < length self.old.marks.items) nodes.now }
        ensures length { length self.new.marks.items ≡ length self.old.marks.items }
        ensures meets { IfOk result (λ _. Meets (Contains nodes.now) self.old.marks.items self.new.marks.items self.old.waiting.items self.new.waiting.items) }
        ensures lists { Lists self.old.marks.items self.old.met.items → Lists self.new.marks.items self.new.met.items }
    {
        for node in nodes {
            self.meet(*node)?;
        }
        Ok(())
    }

    /// Meets all that the roots lead to, where none was met before. Each node is expanded once.
    pub(crate) fn run<G: Graph>(
        &mut self,
        alloc: Global,
        graph: &G,
        roots: &[usize],
    ) -> Result<(), NoMemory>
        requires length { length self.old.marks.items ≡ G.node_count graph.now }
        requires roots { All (λ root. root < G.node_count graph.now) roots.now }
        requires clear { IsClear self.old.marks.items }
        requires waiting { self.old.waiting.items ≡ [] }
        requires met { self.old.met.items ≡ [] }
        ensures length { length self.new.marks.items ≡ length self.old.marks.items }
        ensures exact { IfOk result (λ _. (x : ℕ) → IsMarked self.new.marks.items x ↔ Reached (Contains roots.now) (G.leads graph.now) x) }
        ensures lists { Lists self.new.marks.items self.new.met.items }
    {
        self.meet_each(roots)?;
        let mut next = Vec::new(alloc);
        while let Some(node) = self.waiting.pop() {
            next.clear();
            graph.push_next(node, &mut next)?;
            self.meet_each(&next)?;
        }
        Ok(())
    }
}

/// The nodes that the roots lead to, themselves included: a mark for each node. It takes time by the nodes and edges that are met, and memory by the number of
/// nodes. It fails only where memory is refused.
pub fn reach<G: Graph>(alloc: Global, graph: &G, roots: &[usize]) -> Result<Vec<bool>, NoMemory>
    requires { All (λ root. root < G.node_count graph.now) roots.now }
    ensures length { IfOk result (λ marks. length marks.items ≡ G.node_count graph.now) }
    ensures exact { IfOk result (λ marks. (x : ℕ) → IsMarked marks.items x ↔ Reached (Contains roots.now) (G.leads graph.now) x) }
{
    let mut search = Search::new(alloc, graph.node_count())?;
    search.run(alloc, graph, roots)?;
    let Search {
        marks,
        waiting: _,
        met: _,
    } = search;
    Ok(marks)
}
