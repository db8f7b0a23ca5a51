//! What instructions that go on to the next one take and leave.

ghost use Rattle.std.specs.Prelude.{◌≡◌, ◌+◌, ◌-◌, length, slice_get};
ghost use Rattle.wasm_types.specs.Actions.{callees, leaves, operands, takes};
ghost use Rattle.wasm_types.specs.Typing.{load_type, low_type, type_of_width};
ghost use Rattle.stack_names.specs.Left.{kind_or, left, left_type, num_left};

use crate::place::Place;
use crate::scope::Scope;
use wasm_types::{FuncType, Instr, LoadOp, LowOp, NumOp, ValType, Width};

/// How many operands are taken, and the type of the value that is left, if one is.
#[derive(Clone, Copy)]
pub(crate) struct Effect {
    pub(crate) takes: usize,
    pub(crate) leaves: Option<ValType>,
}

fn type_of(width: Width) -> ValType
    ensures { result ≡ type_of_width width }
{
    match width {
        Width::W32 => ValType::I32,
        Width::W64 => ValType::I64,
    }
}

/// The type that a sign extension leaves.
fn extended(op: LowOp) -> ValType
    ensures { result ≡ low_type op }
{
    match op {
        LowOp::I32S8 | LowOp::I32S16 => ValType::I32,
        LowOp::I64S8 | LowOp::I64S16 | LowOp::I64S32 => ValType::I64,
    }
}

/// The type that an operation on integers leaves.
fn computed(op: NumOp) -> ValType
    ensures { result ≡ num_left op }
{
    match op {
        NumOp::Eqz(_) | NumOp::Rel(_, _) | NumOp::Wrap => ValType::I32,
        NumOp::Un(width, _) | NumOp::Bin(width, _) => type_of(width),
        NumOp::ExtendS | NumOp::ExtendU => ValType::I64,
        NumOp::Low(op) => extended(op),
    }
}

/// How many operands an operation on integers takes.
fn operand_count(op: NumOp) -> usize
    ensures { result ≡ operands op }
{
    match op {
        NumOp::Rel(_, _) | NumOp::Bin(_, _) => 2,
        _ => 1,
    }
}

/// The type that a load leaves.
fn loaded(op: LoadOp) -> ValType
    ensures { result ≡ load_type op }
{
    match op {
        LoadOp::I32 | LoadOp::I32S8 | LoadOp::I32U8 | LoadOp::I32S16 | LoadOp::I32U16 => {
            ValType::I32
        }
        _ => ValType::I64,
    }
}

/// The type of the place below the top: any where there is none.
fn below_top(stack: &[Place]) -> ValType
    ensures { result ≡ kind_or (slice_get stack.now (length stack.now - 2)) }
{
    match stack.get(stack.len().saturating_sub(2)) {
        Some(place) => place.kind,
        None => ValType::I32,
    }
}

/// What a function of this type leaves.
fn result_of(kind: &FuncType) -> Option<ValType>
    ensures { result ≡ slice_get kind.now.results 0 }
{
    kind.results.get(0).copied()
}

/// What an instruction takes and leaves on this stack: nothing where it holds others or transfers control. The type is any where the instruction is not
/// valid.
pub(crate) fn effect_of(scope: &Scope, instr: &Instr, stack: &[Place]) -> Effect
    ensures takes { result.takes ≡ takes (callees scope.now.module.now) instr.now }
    ensures leaves { result.leaves ≡ left (leaves (callees scope.now.module.now) instr.now) (left_type scope.now.module.now scope.now.locals.items instr.now stack.now) }
{
    let (takes, leaves) = match instr {
        Instr::Call(func) => match scope.func_type(*func) {
            Some(kind) => (kind.params.len(), result_of(kind)),
            None => (0, None),
        },
        Instr::CallIndirect(kind) => match scope.module.types.get(*kind as usize) {
            Some(kind) => (kind.params.len() + 1, result_of(kind)),
            None => (0, None),
        },
        Instr::Drop | Instr::LocalSet(_) | Instr::GlobalSet(_) => (1, None),
        Instr::Select => (3, Some(below_top(stack))),
        Instr::LocalGet(local) => (0, Some(scope.local(*local))),
        Instr::LocalTee(local) => (1, Some(scope.local(*local))),
        Instr::GlobalGet(global) => (0, Some(scope.global(*global))),
        Instr::Load(op, _) => (1, Some(loaded(*op))),
        Instr::Store(_, _) => (2, None),
        Instr::MemorySize | Instr::I32Const(_) => (0, Some(ValType::I32)),
        Instr::I64Const(_) => (0, Some(ValType::I64)),
        Instr::MemoryGrow => (1, Some(ValType::I32)),
        Instr::Num(op) => (operand_count(*op), Some(computed(*op))),
        Instr::MemoryCopy | Instr::MemoryFill => (3, None),
        _ => (0, None),
    };
    Effect { takes, leaves }
}
