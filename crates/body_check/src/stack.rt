//! A symbolic stack of types: those that are known, some of them as 'any', over nothing or over anything. After a transfer of control it is empty over
//! anything.

ghost use Rattle.std.specs.Prelude.{◌≡◌, ◌↔◌, [], ◌∷◌, ◌++◌, true, false, reverse, IfOk, OnOk, IsTrue};
ghost use Rattle.wasm_types.specs.declared.module.ValType.TheVariants.{I32};
ghost use Rattle.wasm_types.specs.Validity.{values_of};
ghost use Rattle.body_check.specs.Stacks.{Stands, Exact, Follows, Pops, PopsOne, Pushes, Turns, Leaves, Selects, TakesTop, IsOnto, IsBare, Agrees};

use std::alloc::Global;
use wasm_types::{NoMemory, ValType};

/// The types from the bottom up, an unknown one as `None`, and whether anything may lie below them.
#[derive(Drop)]
pub(crate) struct Stack {
    kinds: Vec<Option<ValType>>,
    any: bool,
}

impl Stack {
    /// The empty stack, over nothing.
    pub(crate) fn new(alloc: Global) -> Stack
        ensures kinds { result.kinds.items ≡ [] }
        ensures any { result.any ≡ false }
    {
        Stack {
            kinds: Vec::new(alloc),
            any: false,
        }
    }

    /// Takes one of the type.
    pub(crate) fn pop(&mut self, kind: ValType) -> bool
        ensures { Follows self.old (Pops (kind ∷ [])) result self.new }
    {
        match self.kinds.pop() {
            Some(Some(known)) => known == kind,
            Some(None) => true,
            None => self.any,
        }
    }

    /// Takes one of any type: none where there is none, and else its type where it is known.
    pub(crate) fn pop_any(&mut self) -> Option<Option<ValType>>
        ensures { TakesTop self.old result self.new }
    {
        match self.kinds.pop() {
            Some(kind) => Some(kind),
            None if self.any => Some(None),
            None => None,
        }
    }

    /// Takes the types, the last one first.
    pub(crate) fn pop_all(&mut self, kinds: &[ValType]) -> bool
        ensures { Follows self.old (Pops (reverse kinds.now)) result self.new }
    {
        let mut left = kinds.len();
        while left > 0 {
            left -= 1;
            let kind = kinds[left];
            if !self.pop(kind) {
                return false;
            }
        }
        true
    }

    /// Takes the values of a block type.
    pub(crate) fn pop_values(&mut self, kind: Option<ValType>) -> bool
        ensures { Follows self.old (Pops (values_of kind)) result self.new }
    {
        match kind {
            Some(kind) => self.pop(kind),
            None => true,
        }
    }

    /// Puts a type, or an unknown one, on the top.
    fn push(&mut self, kind: Option<ValType>) -> Result<(), NoMemory>
        ensures { IfOk result (λ _. IsOnto kind self.old self.new) }
    {
        self.kinds.push(kind).map_err(|_| NoMemory)?;
        Ok(())
    }

    /// Leaves the values of a block type.
    pub(crate) fn push_values(&mut self, kind: Option<ValType>) -> Result<(), NoMemory>
        ensures { IfOk result (λ _. Exact self.old (Pushes (values_of kind)) self.new) }
    {
        match kind {
            Some(_) => self.push(kind),
            None => Ok(()),
        }
    }

    /// Takes the types, the last one first, and leaves the values of a block type.
    pub(crate) fn turn(
        &mut self,
        takes: &[ValType],
        leaves: Option<ValType>,
    ) -> Result<bool, NoMemory>
        ensures { IfOk result (λ ok. Follows self.old (Turns (reverse takes.now) (values_of leaves)) ok self.new) }
    {
        if !self.pop_all(takes) {
            return Ok(false);
        }
        self.push_values(leaves)?;
        Ok(true)
    }

    /// Takes one of any type.
    pub(crate) fn drop_one(&mut self) -> bool
        ensures { Follows self.old PopsOne result self.new }
    {
        match self.pop_any() {
            Some(_) => true,
            None => false,
        }
    }

    /// Takes a number and two of one type, and leaves one of these.
    pub(crate) fn select(&mut self) -> Result<bool, NoMemory>
        ensures { IfOk result (λ ok. Follows self.old (Selects I32) ok self.new) }
    {
        if !self.pop(ValType::I32) {
            return Ok(false);
        }
        let Some(second) = self.pop_any() else {
            return Ok(false);
        };
        let Some(first) = self.pop_any() else {
            return Ok(false);
        };
        match both(first, second) {
            Some(kind) => {
                self.push(kind)?;
                Ok(true)
            }
            None => Ok(false),
        }
    }

    /// Forgets all types: what comes after a transfer of control may begin with any stack.
    fn forget(&mut self)
        ensures { IsBare self.new true }
    {
        self.kinds.clear();
        self.any = true;
    }

    /// Takes nothing, and goes on with any stack.
    pub(crate) fn fall(&mut self)
        ensures { Exact self.old (λ s s'. Unit {0}) self.new }
    {
        self.forget();
    }

    /// Takes the values of a block type, and goes on with any stack.
    pub(crate) fn leave(&mut self, kind: Option<ValType>) -> bool
        ensures { Follows self.old (Leaves (values_of kind)) result self.new }
    {
        if !self.pop_values(kind) {
            return false;
        }
        self.forget();
        true
    }

    /// Takes a number from above the values of a block type, which stay.
    pub(crate) fn pass(&mut self, kind: Option<ValType>) -> Result<bool, NoMemory>
        ensures { IfOk result (λ ok. Follows self.old (Turns (I32 ∷ values_of kind) (values_of kind)) ok self.new) }
    {
        if !self.pop(ValType::I32) {
            return Ok(false);
        }
        if !self.pop_values(kind) {
            return Ok(false);
        }
        self.push_values(kind)?;
        Ok(true)
    }

    /// Takes a number from above the values of a block type and these, and goes on with any stack.
    pub(crate) fn leave_by_number(&mut self, kind: Option<ValType>) -> bool
        ensures { Follows self.old (Leaves (I32 ∷ values_of kind)) result self.new }
    {
        if !self.pop(ValType::I32) {
            return false;
        }
        self.leave(kind)
    }

    /// Whether exactly the values of a block type may be left.
    pub(crate) fn ends_with(mut self, kind: Option<ValType>) -> bool
        ensures { IsTrue result ↔ Stands self (values_of kind) }
    {
        if !self.pop_values(kind) {
            return false;
        }
        self.kinds.as_slice().is_empty()
    }
}

/// What is known of two operands that have one type: none where they have two.
fn both(first: Option<ValType>, second: Option<ValType>) -> Option<Option<ValType>>
    ensures { Agrees first second result }
{
    match (first, second) {
        (Some(a), Some(b)) => { if a == b { Some(first) } else { None } }
        (None, _) => Some(second),
        (_, None) => Some(first),
    }
}
