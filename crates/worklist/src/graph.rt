//! A graph whose edges are enumerated on demand.

ghost use Rattle.std.specs.Prelude.{◌≡◌, ℕ, ◌<◌, ◌≤◌, IfOk};
ghost use Rattle.worklist.specs.Gains.{Gains};

use wasm_types::NoMemory;

/// A graph whose nodes are the numbers below `node_count`. An implementation says by `leads` what its edges are.
pub trait Graph {
    ghost node_count: { Self → ℕ };

    ghost leads: { Self → ℕ → ℕ → Type 0 };

    /// How many nodes there are.
    fn node_count(&self) -> usize
        ensures { result ≡ node_count self.now };

    /// Puts each node that `node` leads to at the end of `next`, in any order and however often. It fails only where memory is refused.
    fn push_next(&self, node: usize, next: &mut Vec<usize>) -> Result<(), NoMemory>
        requires { node < node_count self.now }
        ensures { IfOk result (λ _. Gains (leads self.now node) next.old.items next.new.items) };

    /// Edges stay among the nodes.
    ghost stays: { (graph : Self) (x y : ℕ) → x < node_count graph → leads graph x y → y < node_count graph };
}
