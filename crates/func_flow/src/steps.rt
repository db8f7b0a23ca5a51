//! What stands at each position of a body, as far as dependence goes.

ghost use Rattle.std.specs.Prelude.{◌≡◌, ◌++◌, ◌∷◌, ◌↔◌, [], IfOk, IsTrue, OnOk, None, Some, false, true};
ghost use Rattle.wasm_types.specs.Actions.{form_of};
ghost use Rattle.wasm_types.specs.Code.{code_of, done, onto};
ghost use Rattle.wasm_types.specs.Locations.{divides, number_traps};
ghost use Rattle.func_flow.specs.Steps as spec;

use called_rows::Whom;
use std::alloc::Global;
use wasm_types::{BinOp, Body, Instr, NoMemory, NumOp};

/// Some of the operands of an instruction.
#[derive(Clone, Copy, Debug, PartialEq, Eq)]
pub(crate) enum Picks {
    Nothing,
    All,
    /// The one on the top.
    Top,
    /// The one below the top.
    Second,
    /// All but the one below the top.
    Outer,
}

impl Picks {
    /// Whether an operand is among them, counted from the top.
    pub(crate) fn has(self, index: usize) -> bool
        ensures { IsTrue result ↔ spec.IsPicked self index }
    {
        match self {
            Picks::Nothing => false,
            Picks::All => true,
            Picks::Top => index == 0,
            Picks::Second => index == 1,
            Picks::Outer => index != 1,
        }
    }
}

/// A position: whom it calls; which operands its results and what it writes depend on, where it calls nothing, and which decide whether it traps; by which it
/// decides what runs; whether the run may stop there; and whether it is an if.
#[derive(Clone, Copy, Debug, PartialEq, Eq)]
pub(crate) struct Step {
    pub(crate) whom: Option<Whom>,
    pub(crate) makes: Picks,
    pub(crate) traps: Picks,
    pub(crate) decides: Picks,
    pub(crate) stops: bool,
    pub(crate) arms: bool,
}

fn divides(op: BinOp) -> bool
    ensures { result ≡ divides op }
{
    matches!(op, BinOp::DivS | BinOp::DivU | BinOp::RemS | BinOp::RemU)
}

fn number_traps(op: NumOp) -> bool
    ensures { result ≡ number_traps op }
{
    match op {
        NumOp::Bin(_, op) => divides(op),
        _ => false,
    }
}

/// An instruction that calls nothing, which these operands may have trap.
fn plain(traps: Picks, stops: bool) -> Step
    ensures { result ≡ record { whom = None; makes = Picks.All; traps = traps; decides = Picks.All; stops = stops; arms = false } }
{
    Step {
        whom: None,
        makes: Picks::All,
        traps,
        decides: Picks::All,
        stops,
        arms: false,
    }
}

fn call(whom: Whom) -> Step
    ensures { result ≡ record { whom = Some whom; makes = Picks.Nothing; traps = Picks.Nothing; decides = Picks.All; stops = true; arms = false } }
{
    Step {
        whom: Some(whom),
        makes: Picks::Nothing,
        traps: Picks::Nothing,
        decides: Picks::All,
        stops: true,
        arms: false,
    }
}

/// An instruction that makes nothing, and decides by these operands what runs.
fn deciding(decides: Picks, stops: bool) -> Step
    ensures { result ≡ record { whom = None; makes = Picks.Nothing; traps = Picks.Nothing; decides = decides; stops = stops; arms = false } }
{
    Step {
        whom: None,
        makes: Picks::Nothing,
        traps: Picks::Nothing,
        decides,
        stops,
        arms: false,
    }
}

/// An if.
fn choosing() -> Step
    ensures { result ≡ spec.choosing }
{
    Step {
        whom: None,
        makes: Picks::Nothing,
        traps: Picks::Nothing,
        decides: Picks::Top,
        stops: false,
        arms: true,
    }
}

fn number(op: NumOp) -> Step
    ensures { result ≡ spec.form_step (form_of (Instr.Num op)) }
{
    if number_traps(op) {
        plain(Picks::All, true)
    } else {
        plain(Picks::Nothing, false)
    }
}

/// Of an instruction that goes on to the next one.
fn plain_step(instr: &Instr) -> Step
    ensures { result ≡ spec.form_step (form_of instr.now) }
{
    match instr {
        Instr::Num(op) => number(*op),
        Instr::Load(_, _) => plain(Picks::Top, true),
        Instr::Store(_, _) => plain(Picks::Second, true),
        Instr::MemoryCopy => plain(Picks::All, true),
        Instr::MemoryFill => plain(Picks::Outer, true),
        Instr::Call(func) => call(Whom::Own(*func)),
        Instr::CallIndirect(kind) => call(Whom::Through(*kind)),
        Instr::Nop
        | Instr::Drop
        | Instr::Select
        | Instr::LocalGet(_)
        | Instr::LocalSet(_)
        | Instr::LocalTee(_)
        | Instr::GlobalGet(_)
        | Instr::GlobalSet(_)
        | Instr::MemorySize
        | Instr::MemoryGrow
        | Instr::I32Const(_)
        | Instr::I64Const(_) => plain(Picks::Nothing, false),
        _ => plain(Picks::Nothing, true),
    }
}

/// Of an instruction that holds no others.
fn instr_step(instr: &Instr) -> Step
    ensures { result ≡ spec.instr_step instr.now }
{
    match instr {
        Instr::Br(_) | Instr::Return => deciding(Picks::Nothing, false),
        Instr::BrIf(_) | Instr::BrTable(_, _) => deciding(Picks::Top, false),
        Instr::Unreachable => deciding(Picks::Nothing, true),
        _ => plain_step(instr),
    }
}

fn push(list: &mut Vec<Step>, step: Step) -> Result<(), NoMemory>
    ensures { OnOk result (list.new.items ≡ list.old.items ++ step ∷ []) }
{
    list.push(step).map_err(|_| NoMemory)?;
    Ok(())
}

/// Of an instruction and of what it holds.
#[cycle(steps)]
#[tactic(auto, using(wasm_types::proofs::CodeLemmas::code_steps))]
fn add_instr(list: &mut Vec<Step>, instr: &Instr) -> Result<(), NoMemory>
    ensures { OnOk result (list.new.items ≡ list.old.items ++ spec.steps (onto instr.now done)) }
{
    match instr {
        Instr::Block(_, inner) => {
            push(list, deciding(Picks::Nothing, false))?;
            add_code(list, inner.as_slice())?;
        }
        Instr::Loop(_, inner) => {
            push(list, deciding(Picks::Nothing, false))?;
            add_code(list, inner.as_slice())?;
        }
        Instr::If(_, first, second) => {
            push(list, choosing())?;
            add_code(list, first.as_slice())?;
            add_code(list, second.as_slice())?;
        }
        _ => {
            push(list, instr_step(instr))?;
        }
    }
    Ok(())
}

/// Of a sequence. It calls itself for each block that it goes into.
#[cycle(steps)]
fn add_code(list: &mut Vec<Step>, code: &[Instr]) -> Result<(), NoMemory>
    ensures { OnOk result (list.new.items ≡ list.old.items ++ spec.steps (code_of code.now)) }
{
    for instr in code {
        add_instr(list, instr)?;
    }
    Ok(())
}

/// What stands at each position of a body.
pub(crate) fn steps(alloc: Global, body: &Body) -> Result<Vec<Step>, NoMemory>
    ensures { IfOk result (λ list. list.items ≡ spec.steps (code_of body.now.code)) }
{
    let mut list = Vec::new(alloc);
    add_code(&mut list, body.code.as_slice())?;
    Ok(list)
}
