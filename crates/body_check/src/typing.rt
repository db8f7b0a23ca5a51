//! What instructions that hold no others take and leave: the table of docs/VALIDITY.md, worked out for one instruction.

ghost use Rattle.std.specs.Prelude.{◌≡◌, ◌≢◌, ◌≤◌, ◌∷◌, ◌++◌, [], IfOk, IfSome, length, reverse, slice_get};
ghost use Rattle.wasm_types.specs.Typing.{TypesNum, type_of_width, low_type, load_type, load_bytes, store_type, store_bytes};
ghost use Rattle.wasm_types.specs.Validity.{values_of};
ghost use Rattle.wasm_types.specs.declared.instr.Instr.TheVariants as variant;
ghost use Rattle.body_check.specs.Signatures.{context_of, HasSignature, UsesKind};

use crate::place::Place;
use smallvec::SmallVec;
use std::alloc::Global;
use wasm_types::{FuncType, Instr, LoadOp, LowOp, NoMemory, NumOp, StoreOp, ValType, Width};

/// What is taken, the last on top, and what is left: nothing or one value.
#[derive(Drop)]
pub(crate) struct Signature {
    pub(crate) takes: SmallVec<ValType, 4>,
    pub(crate) leaves: Option<ValType>,
}

/// The signature with these types.
fn taking(alloc: Global, takes: &[ValType], leaves: Option<ValType>) -> Result<Signature, NoMemory>
    ensures { IfOk result (λ s. (s.takes.items ≡ takes.now) × (s.leaves ≡ leaves)) }
{
    Ok(Signature {
        takes: SmallVec::from_slice(alloc, takes)?,
        leaves,
    })
}

/// A signature that takes a value of the type or nothing, and leaves one or nothing: none where there is no type.
fn of_kind(
    alloc: Global,
    kind: Option<ValType>,
    takes: bool,
    leaves: bool,
) -> Result<Option<Signature>, NoMemory>
    ensures { IfOk result (λ r. UsesKind kind takes leaves r) }
{
    let Some(kind) = kind else {
        return Ok(None);
    };
    let left = if leaves { Some(kind) } else { None };
    let found = if takes {
        taking(alloc, &[kind], left)?
    } else {
        taking(alloc, &[], left)?
    };
    Ok(Some(found))
}

fn type_of(width: Width) -> ValType
    ensures { result ≡ type_of_width width }
{
    match width {
        Width::W32 => ValType::I32,
        Width::W64 => ValType::I64,
    }
}

/// The type that a sign extension takes and leaves.
fn extended(op: LowOp) -> ValType
    ensures { result ≡ low_type op }
{
    match op {
        LowOp::I32S8 | LowOp::I32S16 => ValType::I32,
        LowOp::I64S8 | LowOp::I64S16 | LowOp::I64S32 => ValType::I64,
    }
}

/// The signature of an operation on integers.
fn of_operation(alloc: Global, op: NumOp) -> Result<Signature, NoMemory>
    ensures { IfOk result (λ s. TypesNum op (reverse s.takes.items) (values_of s.leaves)) }
{
    match op {
        NumOp::Eqz(width) => taking(alloc, &[type_of(width)], Some(ValType::I32)),
        NumOp::Rel(width, _) => {
            let kind = type_of(width);
            taking(alloc, &[kind, kind], Some(ValType::I32))
        }
        NumOp::Un(width, _) => {
            let kind = type_of(width);
            taking(alloc, &[kind], Some(kind))
        }
        NumOp::Bin(width, _) => {
            let kind = type_of(width);
            taking(alloc, &[kind, kind], Some(kind))
        }
        NumOp::Wrap => taking(alloc, &[ValType::I64], Some(ValType::I32)),
        NumOp::ExtendS => taking(alloc, &[ValType::I32], Some(ValType::I64)),
        NumOp::ExtendU => taking(alloc, &[ValType::I32], Some(ValType::I64)),
        NumOp::Low(op) => {
            let kind = extended(op);
            taking(alloc, &[kind], Some(kind))
        }
    }
}

/// The type that a load leaves, and how many bytes it reads.
fn loaded(op: LoadOp) -> (ValType, u32)
    ensures { result ≡ record { 0 = load_type op; 1 = load_bytes op } }
{
    match op {
        LoadOp::I32 => (ValType::I32, 4),
        LoadOp::I64 => (ValType::I64, 8),
        LoadOp::I32S8 | LoadOp::I32U8 => (ValType::I32, 1),
        LoadOp::I32S16 | LoadOp::I32U16 => (ValType::I32, 2),
        LoadOp::I64S8 | LoadOp::I64U8 => (ValType::I64, 1),
        LoadOp::I64S16 | LoadOp::I64U16 => (ValType::I64, 2),
        LoadOp::I64S32 | LoadOp::I64U32 => (ValType::I64, 4),
    }
}

/// The type that a store takes, and how many bytes it writes.
fn stored(op: StoreOp) -> (ValType, u32)
    ensures { result ≡ record { 0 = store_type op; 1 = store_bytes op } }
{
    match op {
        StoreOp::I32 => (ValType::I32, 4),
        StoreOp::I64 => (ValType::I64, 8),
        StoreOp::I32B8 => (ValType::I32, 1),
        StoreOp::I32B16 => (ValType::I32, 2),
        StoreOp::I64B8 => (ValType::I64, 1),
        StoreOp::I64B16 => (ValType::I64, 2),
        StoreOp::I64B32 => (ValType::I64, 4),
    }
}

/// The signature of a call of a function of this type.
fn of_call(alloc: Global, kind: &FuncType) -> Result<Signature, NoMemory>
    requires { length kind.now.results ≤ 1 }
    ensures takes { IfOk result (λ s. s.takes.items ≡ kind.now.params) }
    ensures leaves { IfOk result (λ s. values_of s.leaves ≡ reverse kind.now.results) }
{
    let leaves = kind.results.get(0).copied();
    let found = taking(alloc, kind.params.as_slice(), leaves)?;
    Ok(found)
}

/// The signature of a call through the table: none where there is no table, or no such type.
fn of_indirect(alloc: Global, place: &Place, kind: u32) -> Result<Option<Signature>, NoMemory>
    ensures { IfOk result (λ r. HasSignature (context_of place.now) (variant.CallIndirect kind) r) }
{
    if !place.has_table() {
        return Ok(None);
    }
    let Some(kind) = place.module.types.get(kind as usize) else {
        return Ok(None);
    };
    let mut found = of_call(alloc, kind)?;
    found.takes.push(ValType::I32).map_err(|_| NoMemory)?;
    Ok(Some(found))
}

/// What an instruction takes and leaves: none where it holds others, transfers control, or has no type where it stands.
pub(crate) fn typing(
    alloc: Global,
    place: &Place,
    instr: &Instr,
) -> Result<Option<Signature>, NoMemory>
    requires one_drop { instr.now ≢ variant.Drop }
    requires one_select { instr.now ≢ variant.Select }
    ensures { IfOk result (λ r. HasSignature (context_of place.now) instr.now r) }
{
    let found = match instr {
        Instr::Nop => taking(alloc, &[], None)?,
        Instr::Call(func) => match place.func_type(*func) {
            Some(kind) => of_call(alloc, kind)?,
            None => return Ok(None),
        },
        Instr::CallIndirect(kind) => return of_indirect(alloc, place, *kind),
        Instr::LocalGet(local) => {
            return of_kind(alloc, place.locals.get(*local), false, true);
        }
        Instr::LocalSet(local) => {
            return of_kind(alloc, place.locals.get(*local), true, false);
        }
        Instr::LocalTee(local) => {
            return of_kind(alloc, place.locals.get(*local), true, true);
        }
        Instr::GlobalGet(global) => {
            return of_kind(alloc, place.global_kind(*global), false, true);
        }
        Instr::GlobalSet(global) => {
            return of_kind(alloc, place.mutable_kind(*global), true, false);
        }
        Instr::Load(op, arg) => {
            let (kind, bytes) = loaded(*op);
            if !place.can_access(*arg, bytes) {
                return Ok(None);
            }
            taking(alloc, &[ValType::I32], Some(kind))?
        }
        Instr::Store(op, arg) => {
            let (kind, bytes) = stored(*op);
            if !place.can_access(*arg, bytes) {
                return Ok(None);
            }
            taking(alloc, &[ValType::I32, kind], None)?
        }
        Instr::MemorySize => {
            if !place.has_memory() {
                return Ok(None);
            }
            taking(alloc, &[], Some(ValType::I32))?
        }
        Instr::MemoryGrow => {
            if !place.has_memory() {
                return Ok(None);
            }
            taking(alloc, &[ValType::I32], Some(ValType::I32))?
        }
        Instr::I32Const(_) => taking(alloc, &[], Some(ValType::I32))?,
        Instr::I64Const(_) => taking(alloc, &[], Some(ValType::I64))?,
        Instr::Num(op) => of_operation(alloc, *op)?,
        Instr::MemoryCopy => {
            if !place.has_memory() {
                return Ok(None);
            }
            taking(alloc, &[ValType::I32, ValType::I32, ValType::I32], None)?
        }
        Instr::MemoryFill => {
            if !place.has_memory() {
                return Ok(None);
            }
            taking(alloc, &[ValType::I32, ValType::I32, ValType::I32], None)?
        }
        _ => return Ok(None),
    };
    Ok(Some(found))
}
