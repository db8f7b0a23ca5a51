//! Searches in graphs of one size, one after another.

ghost use Rattle.std.specs.Prelude.{◌≡◌, ℕ, ◌<◌, ◌↔◌, ◌≢◌, IfOk, length, []};
ghost use Rattle.std.specs.List.{All, AllPairs, Contains};
ghost use Rattle.worklist.specs.Reached.{Reached};
ghost use Rattle.worklist.specs.Search.{IsClear, Lists};

use crate::graph::Graph;
use crate::search::Search;
use std::alloc::Global;
use std::marker::Model;
use wasm_types::NoMemory;

/// What searches in graphs of so many nodes use again and again. Each takes time by the nodes and edges that it meets, however many nodes there are.
#[derive(Drop)]
pub struct Searcher {
    search: Search,
}

impl Model for Searcher {
    ghost use Rattle.std.specs.Prelude.{ℕ, ◌≡◌, [], length};
    ghost use Rattle.worklist.specs.Search.{IsClear};

    ghost Value = { ℕ };

    ghost view = { λ searcher. length searcher.search.marks.items };

    ghost invariant = { λ searcher. IsClear searcher.search.marks.items × ((searcher.search.waiting.items ≡ []) × (searcher.search.met.items ≡ [])) };
}

/// Takes back the marks of the nodes in the list.
fn unmark_each(marks: &mut [bool], nodes: &[usize])
    requires { Lists marks.old nodes.now }
    ensures { IsClear marks.new }
{
    for node in nodes {
        marks[*node] = false;
    }
}

fn copy_of(alloc: Global, nodes: &[usize]) -> Result<Vec<usize>, NoMemory>
    ensures { IfOk result (λ copy. copy.items ≡ nodes.now) }
{
    let copy = nodes.to_vec(alloc).map_err(|_| NoMemory)?;
    Ok(copy)
}

impl Searcher {
    /// For graphs with so many nodes. It fails only where memory is refused.
    pub fn new(alloc: Global, count: usize) -> Result<Searcher, NoMemory>
        ensures { IfOk result (λ searcher. searcher ≡ count) }
    {
        let search = Search::new(alloc, count)?;
        Ok(Searcher { search })
    }

    /// The nodes that the roots lead to, themselves included, each once, in an order that is left open. It fails only where memory is refused, and can be asked
    /// again then.
    pub fn reach<G: Graph>(
        &mut self,
        alloc: Global,
        graph: &G,
        roots: &[usize],
    ) -> Result<Vec<usize>, NoMemory>
        requires size { G.node_count graph.now ≡ self.old }
        requires roots { All (λ root. root < G.node_count graph.now) roots.now }
        ensures size { self.new ≡ self.old }
        ensures once { IfOk result (λ met. AllPairs (λ x y. x ≢ y) met.items) }
        ensures exact { IfOk result (λ met. (x : ℕ) → Contains met.items x ↔ Reached (Contains roots.now) (G.leads graph.now) x) }
    {
        let found = match self.search.run(alloc, graph, roots) {
            Ok(()) => copy_of(alloc, &self.search.met),
            Err(e) => Err(e),
        };
        unmark_each(&mut self.search.marks, &self.search.met);
        self.search.waiting.clear();
        self.search.met.clear();
        found
    }
}
