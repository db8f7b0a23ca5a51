//! What a walk through a body has found.

ghost use Rattle.std.specs.Prelude.{◌≡◌, ◌<◌, ◌^◌, ◌++◌, [], IfOk, length};
ghost use Rattle.wasm_types.specs.declared.place.Taker.TheVariants as variants;

use crate::lists::Lists;
use crate::place::Place;
use crate::push::push;
use crate::stack::top;
use std::alloc::Global;
use wasm_types::{NoMemory, Node, Pos, Taker};

/// What has been found so far: the places of each position, what takes each value, and the values that come together, in reading order.
#[derive(Drop)]
pub(crate) struct Trail {
    pub(crate) lists: Lists,
    pub(crate) takings: Vec<(Node, Taker)>,
    pub(crate) joinings: Vec<(Node, Node)>,
}

impl Trail {
    ghost use Rattle.stack_names.specs.Found.{Adds, ending, found, joins_at, leaving, noted, nothing, opening, taken_by, taking};

    /// Nothing yet, with room asked for ahead for so many positions.
    pub(crate) fn with_capacity(alloc: Global, positions: usize) -> Result<Trail, NoMemory>
        ensures { IfOk result (λ trail. found trail ≡ nothing) }
    {
        let lists = Lists::with_capacity(alloc, positions)?;
        Ok(Trail {
            lists,
            takings: Vec::new(alloc),
            joinings: Vec::new(alloc),
        })
    }

    /// The position that comes next.
    pub(crate) fn here(&self) -> Pos
        requires { length self.now.lists < 2 ^ 32 }
        ensures { result.0 ≡ length self.now.lists }
    {
        Pos(self.lists.len() as u32)
    }

    /// These values are taken, the last one first.
    fn note(&mut self, values: &[Place], taker: Taker) -> Result<(), NoMemory>
        ensures lists { IfOk result (λ _. self.new.lists ≡ self.old.lists) }
        ensures takings { IfOk result (λ _. self.new.takings.items ≡ self.old.takings.items ++ taken_by taker values.now) }
        ensures joinings { IfOk result (λ _. self.new.joinings.items ≡ self.old.joinings.items) }
    {
        let mut left = values.len();
        while left > 0 {
            left -= 1;
            push(&mut self.takings, (values[left].maker, taker))?;
        }
        Ok(())
    }

    /// An instruction takes these values, the last one first: noted only where the takers of all kinds are.
    fn note_instr(&mut self, full: bool, values: &[Place], pos: Pos) -> Result<(), NoMemory>
        ensures lists { IfOk result (λ _. self.new.lists ≡ self.old.lists) }
        ensures takings { IfOk result (λ _. self.new.takings.items ≡ self.old.takings.items ++ noted full (variants.Instr pos) values.now) }
        ensures joinings { IfOk result (λ _. self.new.joinings.items ≡ self.old.joinings.items) }
    {
        if full {
            self.note(values, Taker::Instr(pos))?;
            return Ok(());
        }
        Ok(())
    }

    /// These values come to a node, the last one first.
    pub(crate) fn join(&mut self, node: Node, values: &[Place]) -> Result<(), NoMemory>
        ensures lists { IfOk result (λ _. self.new.lists ≡ self.old.lists) }
        ensures takings { IfOk result (λ _. self.new.takings.items ≡ self.old.takings.items) }
        ensures joinings { IfOk result (λ _. self.new.joinings.items ≡ self.old.joinings.items ++ joins_at node values.now) }
    {
        let mut left = values.len();
        while left > 0 {
            left -= 1;
            push(&mut self.joinings, (node, values[left].maker))?;
        }
        Ok(())
    }

    /// A position more, which takes nothing.
    pub(crate) fn open(&mut self) -> Result<(), NoMemory>
        ensures { IfOk result (λ _. Adds self.old opening self.new) }
    {
        self.lists.add(&[], 0)?;
        Ok(())
    }

    /// A position more, which takes the last so many places of the stack.
    pub(crate) fn take(&mut self, full: bool, stack: &[Place], count: usize) -> Result<(), NoMemory>
        requires { length self.old.lists < 2 ^ 32 }
        ensures { IfOk result (λ _. Adds self.old (taking full (length self.old.lists) count stack.now []) self.new) }
    {
        let pos = self.here();
        let taken = top(stack, count);
        self.lists.add(taken, 0)?;
        self.note_instr(full, taken, pos)?;
        Ok(())
    }

    /// A position more, which takes the last so many places of the stack, and leaves all.
    pub(crate) fn leave(
        &mut self,
        full: bool,
        stack: &[Place],
        count: usize,
    ) -> Result<(), NoMemory>
        requires { length self.old.lists < 2 ^ 32 }
        ensures { IfOk result (λ _. Adds self.old (leaving full (length self.old.lists) count stack.now []) self.new) }
    {
        let pos = self.here();
        self.lists.add(stack, stack.len().saturating_sub(count))?;
        self.note_instr(full, top(stack, count), pos)?;
        Ok(())
    }

    /// The end of a sequence, with these places on its stack.
    pub(crate) fn end(&mut self, node: Node, stack: &[Place]) -> Result<(), NoMemory>
        ensures { IfOk result (λ _. Adds self.old (ending node stack.now) self.new) }
    {
        self.note(stack, Taker::End(node))?;
        self.join(node, stack)?;
        Ok(())
    }
}
