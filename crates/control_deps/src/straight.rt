//! Bodies without blocks and branches.

ghost use Rattle.std.specs.Prelude.{◌≡◌};
ghost use Rattle.control_deps.specs.Straight as spec;

use wasm_types::Instr;

/// Whether an instruction holds no others, doesn't branch, and goes on to the next one.
fn is_straight(instr: &Instr) -> bool
    ensures { result ≡ spec.is_straight instr.now }
{
    !matches!(
        instr,
        Instr::Block(_, _)
            | Instr::Loop(_, _)
            | Instr::If(_, _, _)
            | Instr::Br(_)
            | Instr::BrIf(_)
            | Instr::BrTable(_, _)
            | Instr::Return
            | Instr::Unreachable
    )
}

/// Whether all instructions are so.
pub(crate) fn all_straight(code: &[Instr]) -> bool
    ensures { result ≡ spec.all_straight code.now }
{
    for instr in code {
        if !is_straight(instr) {
            return false;
        }
    }
    true
}
