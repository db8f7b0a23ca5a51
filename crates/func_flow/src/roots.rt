//! Where the search begins.

ghost use Rattle.std.specs.Prelude.{◌≡◌, ◌+◌, ◌*◌, ◌^◌, ◌<◌, ◌≤◌, ◌↔◌, ◌⊎◌, ◌++◌, ◌∷◌, ℕ, [], IfOk, OnOk, IsTrue, Some, None, length, slice_get, true};
ghost use Rattle.std.specs.List.{All, Contains};
ghost use Rattle.wasm_types.specs.declared.module.Pos.{Pos};
ghost use Rattle.wasm_types.specs.Nodes.{At};
ghost use Rattle.block_cfg.specs.Graph.{number, row_of};
ghost use Rattle.func_flow.specs.Items.{IsItem};
ghost use Rattle.func_flow.specs.Next as spec;
ghost use Rattle.func_flow.specs.Roots.{Adds, Begins};
ghost use Rattle.func_flow.specs.Steps.{stops_of};

use crate::items::Item;
use crate::search::Flow;
use std::alloc::Global;
use wasm_types::{NoMemory, Node, Point, Pos};
use worklist::Root;

/// Whether a node is a position that doesn't stand behind another.
fn is_back(node: Node, pos: Pos) -> bool
    ensures { IsTrue result ↔ ((q : Pos) × ((node ≡ At q.0) × (q.0 ≤ pos.0))) }
{
    match node {
        Node::At(other) => other.0 <= pos.0,
        Node::Join(_) | Node::Exit => false,
    }
}

/// Whether one of the nodes is a position that doesn't stand behind another.
fn any_back(nodes: &[Node], pos: Pos) -> bool
    ensures { IsTrue result ↔ ((q : Pos) × (Contains nodes.now (At q.0) × (q.0 ≤ pos.0))) }
{
    for node in nodes {
        if is_back(*node, pos) {
            return true;
        }
    }
    false
}

fn put(roots: &mut Vec<Root>, label: usize, node: usize) -> Result<(), NoMemory>
    ensures { OnOk result (roots.new.items ≡ roots.old.items ++ record { label = label; node = node } ∷ []) }
{
    roots.push(Root { label, node }).map_err(|_| NoMemory)?;
    Ok(())
}

impl Flow<'_> {
    fn push_root(&self, label: usize, item: Item, roots: &mut Vec<Root>) -> Result<(), NoMemory>
        requires { IsItem self.now.tables.numbering item }
        ensures { IfOk result (λ _. Adds (Begins self.now.tables.numbering (λ l j. (l ≡ label) × (j ≡ item))) roots.old.items roots.new.items) }
    {
        let node = self.tables.numbering.number(item);
        put(roots, label, node)?;
        Ok(())
    }

    /// A location at the end of the body.
    fn push_final(&self, index: usize, roots: &mut Vec<Root>) -> Result<(), NoMemory>
        requires { index < self.now.tables.numbering.globals + 3 }
        ensures { IfOk result (λ _. Adds (Begins self.now.tables.numbering (λ l. spec.FirstFinal self.now.tables l index)) roots.old.items roots.new.items) }
    {
        let loc = self.tables.numbering.loc(index);
        self.push_root(index + 2, Item::Needed(loc, Node::Exit), roots)?;
        Ok(())
    }

    fn push_finals(&self, roots: &mut Vec<Root>) -> Result<(), NoMemory>
        ensures { IfOk result (λ _. Adds (Begins self.now.tables.numbering (λ l. spec.FromBelow (self.now.tables.numbering.globals + 3)
            (spec.FirstFinal self.now.tables l))) roots.old.items roots.new.items) }
    {
        for index in 0..self.tables.numbering.globals + 3 {
            self.push_final(index, roots)?;
        }
        Ok(())
    }

    /// Whether the run may stop at a position.
    fn stops(&self, pos: Pos) -> bool
        ensures { result ≡ stops_of (slice_get self.now.tables.steps.now pos.0) }
    {
        match self.step(pos) {
            Some(step) => step.stops,
            None => false,
        }
    }

    fn push_stopping(&self, pos: Pos, roots: &mut Vec<Root>) -> Result<(), NoMemory>
        requires { number (At pos.0) < self.now.tables.numbering.nodes }
        ensures { IfOk result (λ _. Adds (Begins self.now.tables.numbering (λ l j. (l ≡ 0) × ((stops_of (slice_get self.now.tables.steps.now pos.0) ≡ true) ×
            (j ≡ Item.Completion (At pos.0))))) roots.old.items roots.new.items) }
    {
        if self.stops(pos) {
            self.push_root(0, Item::Completion(Node::At(pos)), roots)?;
        }
        Ok(())
    }

    fn push_looping(&self, pos: Pos, roots: &mut Vec<Root>) -> Result<(), NoMemory>
        requires node { number (At pos.0) < self.now.tables.numbering.nodes }
        requires point { Contains self.now.tables.cfg.now.points (Node.At pos) }
        ensures { IfOk result (λ _. Adds (Begins self.now.tables.numbering (λ l j. (l ≡ 0) × (spec.LeadsBack self.now.tables pos.0 ×
            (j ≡ Item.Decider (At pos.0))))) roots.old.items roots.new.items) }
    {
        if any_back(self.tables.cfg.next(Node::At(pos)), pos) {
            self.push_root(0, Item::Decider(Node::At(pos)), roots)?;
        }
        Ok(())
    }

    /// Where the run may stop, or go round.
    fn push_stop(&self, point: Point, roots: &mut Vec<Root>) -> Result<(), NoMemory>
        requires node { number point < self.now.tables.numbering.nodes }
        requires point { Contains self.now.tables.cfg.now.points point }
        ensures { IfOk result (λ _. Adds (Begins self.now.tables.numbering (λ l j. (l ≡ 0) × spec.Stop self.now.tables point j))
            roots.old.items roots.new.items) }
    {
        match point {
            Node::At(pos) => {
                self.push_stopping(pos, roots)?;
                self.push_looping(pos, roots)?;
                Ok(())
            }
            Node::Join(_) | Node::Exit => Ok(()),
        }
    }

    fn push_stops(&self, roots: &mut Vec<Root>) -> Result<(), NoMemory>
        ensures { IfOk result (λ _. Adds (Begins self.now.tables.numbering (λ l j. (l ≡ 0) × spec.FromEach self.now.tables.cfg.now.points
            (spec.Stop self.now.tables) j)) roots.old.items roots.new.items) }
    {
        for point in self.tables.cfg.points() {
            self.push_stop(*point, roots)?;
        }
        Ok(())
    }

    /// Where the search begins, by the number of a row.
    pub(crate) fn roots(&self, alloc: Global) -> Result<Vec<Root>, NoMemory>
        ensures { IfOk result (λ roots. Adds (Begins self.now.tables.numbering (spec.First self.now.tables)) [] roots.items) }
    {
        let mut roots = Vec::new(alloc);
        self.push_root(1, Item::Value(Node::Exit), &mut roots)?;
        self.push_finals(&mut roots)?;
        self.push_stops(&mut roots)?;
        Ok(roots)
    }
}
