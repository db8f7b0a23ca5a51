//! Sets of nodes, as kept sets are.

ghost use Rattle.std.specs.Prelude.{◌≡◌, ◌+◌, ◌-◌, ◌^◌, ◌<◌, ◌≤◌, ℕ, IfErr, IfOk, count_by, if◌then◌else◌, length, not, false, slice_index_or};
ghost use Rattle.wasm_types.specs.declared.place.Node.{Node};
ghost use Rattle.flow_domain.specs.KeptSets as spec;

use std::alloc::Global;
use std::marker::Model;
use wasm_types::{NoMemory, Node, Pos};

/// A set of nodes of a body. It takes memory by the greatest position that it holds.
#[derive(Drop)]
pub struct Kept {
    flags: Vec<bool>,
    count: u32,
}

impl Model for Kept {
    ghost use Rattle.std.specs.Prelude.{◌≡◌};
    ghost use Rattle.flow_domain.specs.KeptSets as spec;

    ghost Value = { spec.KeptSet };

    ghost view = { λ kept. kept.flags.items };

    ghost invariant = { λ kept. kept.count ≡ spec.size kept.flags.items };
}

/// The number of a node: each has one of its own.
fn number(node: Node) -> usize
    ensures { result ≡ spec.number node }
{
    match node {
        Node::Exit => 0,
        Node::At(Pos(at)) => 2 * at as usize + 1,
        Node::Join(Pos(at)) => 2 * at as usize + 2,
    }
}

/// Lengthens flags until there is one of this number. What is new is not set.
fn lengthen(flags: &mut Vec<bool>, number: usize) -> Result<(), NoMemory>
    ensures long { IfOk result (λ _. number < length flags.new.items) }
    ensures short { (end : ℕ) → number < end → length flags.old.items ≤ end → length flags.new.items ≤ end }
    ensures same { (k : ℕ) → slice_index_or flags.new.items k false ≡ slice_index_or flags.old.items k false }
    ensures count { count_by (λ flag. flag) flags.new.items ≡ count_by (λ flag. flag) flags.old.items }
{
    while flags.len() <= number {
        flags.push(false).map_err(|_| NoMemory)?;
    }
    Ok(())
}

impl Kept {
    /// The empty set, which takes no memory.
    pub fn new(alloc: Global) -> Kept
        ensures empty { (n : Node) → spec.holds result n ≡ false }
        ensures size { spec.size result ≡ 0 }
        ensures short { length result ≡ 0 }
    {
        Kept {
            flags: Vec::new(alloc),
            count: 0,
        }
    }

    /// Adds a node, and says whether it is new. It fails only where memory is refused, and the set is as before then.
    pub fn add(&mut self, node: Node) -> Result<bool, NoMemory>
        requires { spec.size self.old < 2 ^ 32 - 1 }
        ensures added { IfOk result (λ _. spec.IsWith node self.old self.new) }
        ensures answer { IfOk result (λ new. new ≡ not (spec.holds self.old node)) }
        ensures size { IfOk result (λ new. spec.size self.new ≡ (if new then spec.size self.old + 1 else spec.size self.old)) }
        ensures same { IfErr result (λ _. spec.AreSame self.old self.new) }
        // The flags end with the greatest number of a node, so that a bound on the numbers bounds the size.
        ensures short { (end : ℕ) → spec.number node < end → length self.old ≤ end → length self.new ≤ end }
    {
        let number = number(node);
        lengthen(&mut self.flags, number)?;
        if self.flags[number] {
            return Ok(false);
        }
        self.flags[number] = true;
        self.count += 1;
        Ok(true)
    }

    /// Whether a node is in the set.
    pub fn has(&self, node: Node) -> bool
        ensures { result ≡ spec.holds self.now node }
    {
        match self.flags.get(number(node)) {
            Some(flag) => *flag,
            None => false,
        }
    }

    /// How many nodes are in the set.
    pub fn len(&self) -> u32
        ensures { result ≡ spec.size self.now }
    {
        self.count
    }
}
