//! How far a cut has come, and what is put for an unkept instruction.

ghost use Rattle.std.specs.Prelude.{◌≡◌, ◌∷◌, ◌+◌, ℕ, [], false, Bool, List, IfOk};
ghost use Rattle.wasm_types.specs.Marked.{Marked};
ghost use Rattle.flow_domain.specs.Cut.{drops, zero_const, zeros};
ghost use Rattle.stack_repair.specs.Told.{IsPlace, Puts, SamePlace};

use sqlite_items::Items;
use wasm_types::{Instr, NoMemory, ValType};

/// The position in the body, how many instructions were put so far, and where the watched one was put.
#[derive(Drop)]
pub(crate) struct Tally {
    pub(crate) pos: u32,
    pub(crate) count: u32,
    pub(crate) at: Option<u32>,
}

impl Tally {
    /// An instruction is put, watched or not. The count stays at the greatest number, which no cut comes to.
    pub(crate) fn put(&mut self, is_watched: bool)
        ensures pos { self.new.pos ≡ self.old.pos }
        ensures place { (ms : List Bool) → SamePlace self.old (is_watched ∷ ms) self.new ms }
    {
        if is_watched && self.at.is_none() {
            self.at = Some(self.count);
        }
        if self.count < u32::MAX {
            self.count += 1;
        }
    }

    /// Where the watched instruction was put, or how many were put where it was not.
    pub(crate) fn place(&self) -> u32
        ensures { (k : ℕ) → IsPlace self.now.at self.now.count [] k → result ≡ k }
    {
        match self.at {
            Some(at) => at,
            None => self.count,
        }
    }
}

/// Puts so many drops.
pub(crate) fn put_drops(
    made: &mut Items<Instr>,
    tally: &mut Tally,
    count: usize,
) -> Result<(), NoMemory>
    ensures pos { tally.new.pos ≡ tally.old.pos }
    ensures puts { IfOk result (λ _. (X : Marked) → Puts made.old tally.old (drops count X) made.new tally.new X) }
{
    for _ in 0..count {
        made.push(Instr::Drop)?;
        tally.put(false);
    }
    Ok(())
}

/// The zero constant of a type: of a float type, which no module of the subset has, that of i32.
fn zero_const(kind: ValType) -> Instr
    ensures { result ≡ zero_const kind }
{
    match kind {
        ValType::I64 => Instr::I64Const(0),
        _ => Instr::I32Const(0),
    }
}

/// Puts the zero constant of a type, if there is one.
pub(crate) fn put_zero(
    made: &mut Items<Instr>,
    tally: &mut Tally,
    kind: Option<ValType>,
) -> Result<(), NoMemory>
    ensures pos { tally.new.pos ≡ tally.old.pos }
    ensures puts { IfOk result (λ _. (X : Marked) → Puts made.old tally.old (zeros kind X) made.new tally.new X) }
{
    if let Some(kind) = kind {
        made.push(zero_const(kind))?;
        tally.put(false);
    }
    Ok(())
}
