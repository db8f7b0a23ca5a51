//! Nodes that wait, each at most once.

ghost use Rattle.std.specs.Prelude.{◌≡◌, ℕ, ◌+◌, ◌<◌, ◌≤◌, IfOk, IfNone, IfSome, [], ◌⊎◌, length};
ghost use Rattle.std.specs.List.{Contains};
ghost use Rattle.worklist.specs.Spreads.{IsQueue};

use std::alloc::Global;
use wasm_types::NoMemory;

/// The nodes that wait, as a list, with a mark for each of them.
#[derive(Drop)]
pub(crate) struct Queue {
    waits: Vec<bool>,
    nodes: Vec<usize>,
}

impl Queue {
    /// None waits, of so many nodes.
    pub(crate) fn new(alloc: Global, count: usize) -> Result<Queue, NoMemory>
        ensures ready { IfOk result (λ queue. IsQueue count queue.waits.items queue.nodes.items) }
        ensures empty { IfOk result (λ queue. queue.nodes.items ≡ []) }
    {
        let waits = vec![in alloc; false; count].map_err(|_| NoMemory)?;
        Ok(Queue {
            waits,
            nodes: Vec::new(alloc),
        })
    }

    /// Lets a node wait.
    pub(crate) fn put(&mut self, node: usize) -> Result<(), NoMemory>
        requires within { node < length self.old.waits.items }
        requires ready { IsQueue (length self.old.waits.items) self.old.waits.items self.old.nodes.items }
        ensures ready { IfOk result (λ _. IsQueue (length self.old.waits.items) self.new.waits.items self.new.nodes.items) }
        ensures there { IfOk result (λ _. Contains self.new.nodes.items node) }
        ensures kept { IfOk result (λ _. (x : ℕ) → Contains self.old.nodes.items x → Contains self.new.nodes.items x) }
        ensures longer { IfOk result (λ _. length self.new.nodes.items ≤ length self.old.nodes.items + 1) }
    {
        if !self.waits[node] {
            self.nodes.push(node).map_err(|_| NoMemory)?;
            self.waits[node] = true;
        }
        Ok(())
    }

    /// Takes one that waits: none exactly where none waits.
    pub(crate) fn take(&mut self) -> Option<usize>
        requires { IsQueue (length self.old.waits.items) self.old.waits.items self.old.nodes.items }
        ensures ready { IsQueue (length self.old.waits.items) self.new.waits.items self.new.nodes.items }
        ensures left { IfSome result (λ node. (x : ℕ) → Contains self.old.nodes.items x → Contains self.new.nodes.items x ⊎ (x ≡ node)) }
        ensures shorter { IfSome result (λ _. length self.new.nodes.items + 1 ≡ length self.old.nodes.items) }
        ensures none { IfNone result (self.old.nodes.items ≡ []) }
        ensures within { IfSome result (λ node. node < length self.old.waits.items) }
    {
        let node = self.nodes.pop()?;
        self.waits[node] = false;
        Some(node)
    }
}
