//! Whom instructions call.

ghost use Rattle.std.specs.Prelude.{◌≡◌, ◌↔◌, ◌<◌, IsTrue};
ghost use Rattle.called_rows.specs.Whom as spec;

use wasm_types::Instr;

/// Whom a call calls: a function by its number, or what the table holds for a type number.
#[derive(Clone, Copy, Debug, PartialEq, Eq)]
pub enum Whom {
    Own(u32),
    Through(u32),
}

impl Whom {
    /// Whom an instruction calls, if it is a call.
    pub fn of(instr: &Instr) -> Option<Whom>
        ensures { result ≡ spec.whom_of instr.now }
    {
        match instr {
            Instr::Call(func) => Some(Whom::Own(*func)),
            Instr::CallIndirect(kind) => Some(Whom::Through(*kind)),
            _ => None,
        }
    }

    /// Whether an operand, of so many, is the index of a call through the table.
    pub fn is_last(self, count: usize, index: usize) -> bool
        requires { index < count }
        ensures { IsTrue result ↔ spec.IsLast self count index }
    {
        match self {
            Whom::Own(_) => false,
            Whom::Through(_) => index + 1 == count,
        }
    }
}
