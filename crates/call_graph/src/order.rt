//! An order of the nodes of a graph: each stands behind those that it leads to, but for edges of cycles.

ghost use Rattle.std.specs.Prelude.{◌≡◌, ℕ, ◌<◌, ◌↔◌, ◌++◌, ◌∷◌, [], IfOk, length};
ghost use Rattle.std.specs.List.{Contains};
ghost use Rattle.worklist.specs.Search.{IsMarked, Meets};
ghost use Rattle.call_graph.specs.Orders.{IsWalk, steps_left};

use std::alloc::Global;
use wasm_types::NoMemory;
use worklist::ListGraph;

/// A walk over a graph, depth first.
#[derive(Drop)]
struct Walk {
    /// The edges that weren't taken yet.
    next: Vec<Vec<usize>>,
    met: Vec<bool>,
    /// The nodes that were entered and not left, each led to by the one before it.
    path: Vec<usize>,
    /// The nodes that were left.
    order: Vec<usize>,
}

impl Walk {
    /// Enters a node, where it is new.
    fn enter(&mut self, node: usize) -> Result<(), NoMemory>
        requires { node < length self.old.met.items }
        ensures next { self.new.next.items ≡ self.old.next.items }
        ensures order { self.new.order.items ≡ self.old.order.items }
        ensures meets { IfOk result (λ _. Meets (λ x. x ≡ node) self.old.met.items self.new.met.items self.old.path.items self.new.path.items) }
    {
        if self.met[node] {
            return Ok(());
        }
        self.path.push(node).map_err(|_| NoMemory)?;
        self.met[node] = true;
        Ok(())
    }

    /// Takes an edge from a node that was the last of the path, or leaves it where none is left.
    fn step(&mut self, node: usize) -> Result<(), NoMemory>
        requires { IsWalk (length self.old.met.items) self.old.next.items self.old.met.items (self.old.path.items ++ node ∷ []) self.old.order.items }
        ensures walk { IfOk result (λ _. IsWalk (length self.old.met.items) self.new.next.items self.new.met.items self.new.path.items self.new.order.items) }
        ensures kept { IfOk result (λ _. (x : ℕ) → IsMarked self.old.met.items x → IsMarked self.new.met.items x) }
        ensures less { IfOk result (λ _. steps_left self.new.next.items self.new.met.items self.new.path.items
            < steps_left self.old.next.items self.old.met.items (self.old.path.items ++ node ∷ [])) }
    {
        match self.next[node].pop() {
            Some(next) => {
                self.path.push(node).map_err(|_| NoMemory)?;
                self.enter(next)?;
            }
            None => self.order.push(node).map_err(|_| NoMemory)?,
        }
        Ok(())
    }

    /// Walks from a node on until all nodes that it leads to are left.
    fn walk_from(&mut self, node: usize) -> Result<(), NoMemory>
        requires within { node < length self.old.met.items }
        requires walk { IsWalk (length self.old.met.items) self.old.next.items self.old.met.items [] self.old.order.items }
        requires empty { self.old.path.items ≡ [] }
        ensures walk { IfOk result (λ _. IsWalk (length self.old.met.items) self.new.next.items self.new.met.items [] self.new.order.items) }
        ensures empty { IfOk result (λ _. self.new.path.items ≡ []) }
        ensures kept { IfOk result (λ _. (x : ℕ) → IsMarked self.old.met.items x → IsMarked self.new.met.items x) }
        ensures met { IfOk result (λ _. IsMarked self.new.met.items node) }
    {
        self.enter(node)?;
        while let Some(last) = self.path.pop() {
            self.step(last)?;
        }
        Ok(())
    }
}

/// All nodes of a graph, each behind those that it leads to where no cycle leads back. It takes time by the nodes and edges. It fails only where an
/// allocation is refused.
pub(crate) fn order_of(alloc: Global, graph: ListGraph) -> Result<Vec<usize>, NoMemory>
    ensures { IfOk result (λ order. (x : ℕ) → Contains order.items x ↔ (x < length graph.next.items)) }
{
    let ListGraph { next } = graph;
    let count = next.len();
    let met = vec![in alloc; false; count].map_err(|_| NoMemory)?;
    let mut walk = Walk {
        next,
        met,
        path: Vec::new(alloc),
        order: Vec::new(alloc),
    };
    for node in 0..count {
        walk.walk_from(node)?;
    }
    let Walk {
        next: _,
        met: _,
        path: _,
        order,
    } = walk;
    Ok(order)
}

/// Those of the numbers below a count, in their order.
pub(crate) fn those_below(
    alloc: Global,
    count: usize,
    order: &[usize],
) -> Result<Vec<usize>, NoMemory>
    ensures { IfOk result (λ funcs. (x : ℕ) → Contains funcs.items x ↔ (Contains order.now x × (x < count))) }
{
    let mut funcs = Vec::new(alloc);
    for node in order {
        if *node < count {
            funcs.push(*node).map_err(|_| NoMemory)?;
        }
    }
    Ok(funcs)
}
