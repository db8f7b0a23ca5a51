//! The nodes that roots lead to, of very many.

ghost use Rattle.std.specs.Prelude.{◌≡◌, ℕ, ◌<◌, ◌≤◌, ◌↔◌, IfOk, length, []};
ghost use Rattle.std.specs.List.{All, Contains};
ghost use Rattle.worklist.specs.Reached.{Reached};
ghost use Rattle.worklist.specs.Search.{IsClear, IsMarked, Meets};
ghost use Rattle.sparse_reach.specs.Flags.{flags};

use crate::marks::Marks;
use std::alloc::Global;
use wasm_types::NoMemory;
use worklist::Graph;

/// Which nodes were met, and which of them still wait.
#[derive(Drop)]
struct Search {
    marks: Marks,
    waiting: Vec<usize>,
}

impl Search {
    /// No node is met, of so many at least.
    fn new(alloc: Global, count: usize) -> Result<Search, NoMemory>
        ensures enough { IfOk result (λ search. count ≤ length (flags search.marks.words)) }
        ensures clear { IfOk result (λ search. IsClear (flags search.marks.words)) }
        ensures waiting { IfOk result (λ search. search.waiting.items ≡ []) }
    {
        Ok(Search {
            marks: Marks::new(alloc, count)?,
            waiting: Vec::new(alloc),
        })
    }

    /// Marks a node, which waits if it is new.
    fn meet(&mut self, node: usize) -> Result<(), NoMemory>
        requires { node < length (flags self.old.marks.words) }
        ensures length { IfOk result (λ _. length (flags self.new.marks.words) ≡ length (flags self.old.marks.words)) }
        ensures meets { IfOk result (λ _. Meets (λ x. x ≡ node) (flags self.old.marks.words) (flags self.new.marks.words) self.old.waiting.items self.new.waiting.items) }
    {
        if self.marks.has(node) {
            return Ok(());
        }
        self.marks.set(node)?;
        self.waiting.push(node).map_err(|_| NoMemory)?;
        Ok(())
    }

    fn meet_each(&mut self, nodes: &[usize]) -> Result<(), NoMemory>
        requires { All (λ node. node < length (flags self.old.marks.words)) nodes.now }
        ensures length { IfOk result (λ _. length (flags self.new.marks.words) ≡ length (flags self.old.marks.words)) }
        ensures meets { IfOk result (λ _. Meets (Contains nodes.now) (flags self.old.marks.words) (flags self.new.marks.words) self.old.waiting.items self.new.waiting.items) }
    {
        for node in nodes {
            self.meet(*node)?;
        }
        Ok(())
    }
}

/// The nodes that the roots lead to, themselves included: a mark for each. It takes time by the nodes and edges that are met, and memory where nodes are met. It
/// fails only where memory is refused.
pub fn reach_few<G: Graph>(alloc: Global, graph: &G, roots: &[usize]) -> Result<Marks, NoMemory>
    requires { All (λ root. root < G.node_count graph.now) roots.now }
    ensures enough { IfOk result (λ marks. G.node_count graph.now ≤ length (flags marks.words)) }
    ensures exact { IfOk result (λ marks. (x : ℕ) → IsMarked (flags marks.words) x ↔ Reached (Contains roots.now) (G.leads graph.now) x) }
{
    let mut search = Search::new(alloc, graph.node_count())?;
    search.meet_each(roots)?;
    let mut next = Vec::new(alloc);
    while let Some(node) = search.waiting.pop() {
        next.clear();
        graph.push_next(node, &mut next)?;
        search.meet_each(&next)?;
    }
    let Search { marks, waiting: _ } = search;
    Ok(marks)
}
