//! The direct effects of a body: what its live positions call, touch and write.

ghost use Rattle.std.specs.Prelude.{◌≡◌, ◌++◌, IfOk};
ghost use Rattle.wasm_types.specs.Code.{code_of, done, onto};
ghost use Rattle.flow_domain.specs.LocRows.{goes_on as going};
ghost use Rattle.call_graph.specs.Lists.{deeds_of, live_deeds};

use wasm_types::{Instr, Loc, NoMemory};

/// What a function may do that those who call it do too: it calls a function, or what the table holds by a type number, or it touches or writes a location.
#[derive(Clone, Copy)]
pub(crate) enum Deed {
    Calls(u32),
    CallsThrough(u32),
    Touches(Loc),
    Writes(Loc),
}

/// Puts some at the end.
pub(crate) fn add(deeds: &mut Vec<Deed>, more: &[Deed]) -> Result<(), NoMemory>
    ensures { IfOk result (λ _. deeds.new.items ≡ deeds.old.items ++ more.now) }
{
    deeds.extend_from_slice(more)?;
    Ok(())
}

/// Puts what an instruction does at the end, without what it holds.
fn add_own(deeds: &mut Vec<Deed>, instr: &Instr) -> Result<(), NoMemory>
    ensures { IfOk result (λ _. deeds.new.items ≡ deeds.old.items ++ deeds_of instr.now) }
{
    match instr {
        Instr::GlobalGet(global) => add(deeds, &[Deed::Touches(Loc::Global(*global))]),
        Instr::GlobalSet(global) => add(
            deeds,
            &[
                Deed::Touches(Loc::Global(*global)),
                Deed::Writes(Loc::Global(*global)),
            ],
        ),
        Instr::Load(_, _) => add(deeds, &[Deed::Touches(Loc::Mem), Deed::Touches(Loc::Size)]),
        Instr::Store(_, _) => add(
            deeds,
            &[
                Deed::Touches(Loc::Mem),
                Deed::Touches(Loc::Size),
                Deed::Writes(Loc::Mem),
            ],
        ),
        Instr::MemoryCopy => add(
            deeds,
            &[
                Deed::Touches(Loc::Mem),
                Deed::Touches(Loc::Size),
                Deed::Writes(Loc::Mem),
            ],
        ),
        Instr::MemoryFill => add(
            deeds,
            &[
                Deed::Touches(Loc::Mem),
                Deed::Touches(Loc::Size),
                Deed::Writes(Loc::Mem),
            ],
        ),
        Instr::MemorySize => add(deeds, &[Deed::Touches(Loc::Size)]),
        Instr::MemoryGrow => add(deeds, &[Deed::Touches(Loc::Size), Deed::Writes(Loc::Size)]),
        Instr::Call(func) => add(deeds, &[Deed::Calls(*func)]),
        Instr::CallIndirect(kind) => add(deeds, &[Deed::CallsThrough(*kind)]),
        _ => Ok(()),
    }
}

/// Whether what follows an instruction in its sequence can be live.
fn goes_on(instr: &Instr) -> bool
    ensures { result ≡ going instr.now }
{
    !matches!(
        instr,
        Instr::Unreachable | Instr::Br(_) | Instr::BrTable(_, _) | Instr::Return
    )
}

/// Puts what an instruction does at the end, and what it holds.
#[cycle(live)]
#[tactic(auto, using(wasm_types::proofs::CodeLemmas::code_steps))]
fn add_instr(deeds: &mut Vec<Deed>, instr: &Instr) -> Result<(), NoMemory>
    ensures { IfOk result (λ _. deeds.new.items ≡ deeds.old.items ++ live_deeds (onto instr.now done)) }
{
    match instr {
        Instr::Block(_, inner) => {
            add_code(deeds, inner.as_slice())?;
        }
        Instr::Loop(_, inner) => {
            add_code(deeds, inner.as_slice())?;
        }
        Instr::If(_, first, second) => {
            add_code(deeds, first.as_slice())?;
            add_code(deeds, second.as_slice())?;
        }
        _ => {
            add_own(deeds, instr)?;
        }
    }
    Ok(())
}

/// Puts what the live positions of a sequence do at the end. It calls itself for each block that it goes into. It fails only where an allocation is refused.
#[cycle(live)]
pub(crate) fn add_code(deeds: &mut Vec<Deed>, code: &[Instr]) -> Result<(), NoMemory>
    ensures { IfOk result (λ _. deeds.new.items ≡ deeds.old.items ++ live_deeds (code_of code.now)) }
{
    for instr in code {
        add_instr(deeds, instr)?;
        if !goes_on(instr) {
            return Ok(());
        }
    }
    Ok(())
}
