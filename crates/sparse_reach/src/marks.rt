//! A mark for each of very many nodes, of which few are set.

ghost use Rattle.std.specs.Prelude.{◌≡◌, ℕ, ◌/◌, ◌%◌, ◌^◌, ◌*◌, ◌<◌, ◌≤◌, ◌↔◌, IfOk, IsTrue, length, slice_index, slice_set, bit_or, true};
ghost use Rattle.std.specs.Int.{bit_at};
ghost use Rattle.worklist.specs.Search.{IsClear, IsMarked};
ghost use Rattle.sparse_reach.specs.Flags.{flags};

use crate::words::Words;
use std::alloc::Global;
use wasm_types::NoMemory;

/// A bit for each node. It takes memory where bits are set alone, a page of 32,768 of them at a time.
#[derive(Drop)]
pub struct Marks {
    words: Words,
}

/// Whether a bit of some words is set.
fn has_bit(words: &Words, at: usize) -> bool
    requires { at / 64 < length words.now }
    ensures { IsTrue result ↔ bit_at (slice_index words.now (at / 64)) (at % 64) ≡ 1 }
{
    (words.get(at / 64) >> (at % 64)) & 1 == 1
}

impl Marks {
    /// None is set, of so many at least.
    pub(crate) fn new(alloc: Global, count: usize) -> Result<Marks, NoMemory>
        ensures enough { IfOk result (λ marks. count ≤ length (flags marks.words)) }
        ensures clear { IfOk result (λ marks. IsClear (flags marks.words)) }
    {
        let words = Words::new(alloc, count.div_ceil(64))?;
        Ok(Marks { words })
    }

    /// Whether the mark of a node is set.
    pub fn has(&self, node: usize) -> bool
        requires { node < length (flags self.now.words) }
        ensures { IsTrue result ↔ IsMarked (flags self.now.words) node }
    {
        has_bit(&self.words, node)
    }

    /// Sets the mark of a node.
    pub(crate) fn set(&mut self, node: usize) -> Result<(), NoMemory>
        requires { node < length (flags self.old.words) }
        ensures long { length (flags self.new.words) ≡ length (flags self.old.words) }
        ensures set { IfOk result (λ _. flags self.new.words ≡ slice_set (flags self.old.words) node true) }
    {
        self.words.raise(node / 64, 1u64 << (node % 64))?;
        Ok(())
    }
}
