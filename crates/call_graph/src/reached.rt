//! The functions that calls lead to from one of them.

ghost use Rattle.std.specs.Prelude.{◌≡◌, ◌↔◌, ℕ, IsTrue};
ghost use Rattle.wasm_types.specs.declared.module.Module.{Module};
ghost use Rattle.wasm_types.specs.Hosts.{IsFunction};
ghost use Rattle.flow_domain.specs.Reach.{Reached as Reaches};
ghost use Rattle.call_graph.specs.Graph.{IsReachedFrom};

/// Which functions calls lead to from one of them.
#[derive(Drop)]
pub struct Reached {
    /// By node whether it was met.
    pub(crate) met: Vec<bool>,
}

impl Reached {
    /// Whether calls, one after another, lead from that function to another: to itself, too.
    pub fn has(&self, other: u32) -> bool
        ensures { (m : Module) (func : ℕ) → IsReachedFrom m func self.now → IsFunction m other → (IsTrue result ↔ Reaches m func other) }
    {
        match self.met.get(other as usize) {
            Some(met) => *met,
            None => false,
        }
    }
}
