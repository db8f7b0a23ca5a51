//! The code of one function.

ghost use Rattle.std.specs.Prelude.{◌≡◌, IfOk};
ghost use Rattle.module_mill.specs.Mill.{adds, calls, code, counts, lap, stores, sum, work};

use sqlite_items::Items;
use std::alloc::Global;
use wasm_types::{BinOp, Instr, MemArg, NoMemory, NumOp, StoreOp, Width};

/// The items, one after another.
pub fn listed<T: Drop, const N: usize>(alloc: Global, items: [T; N]) -> Result<Items<T>, NoMemory>
    ensures { IfOk result (λ made. made ≡ items) }
{
    match Vec::from_array(alloc, items) {
        Ok(items) => Ok(Items::from_vec(items)),
        Err(_) => Err(NoMemory),
    }
}

/// An operation on two i32 values.
fn binary(op: BinOp) -> Instr
    ensures { result ≡ Instr.Num (NumOp.Bin Width.W32 op) }
{
    Instr::Num(NumOp::Bin(Width::W32, op))
}

/// A global grows by the first argument.
fn adds(alloc: Global, global: u32) -> Result<Items<Instr>, NoMemory>
    ensures { IfOk result (λ made. made ≡ adds global) }
{
    let add = binary(BinOp::Add);
    listed(
        alloc,
        [
            Instr::GlobalGet(global),
            Instr::LocalGet(0),
            add,
            Instr::GlobalSet(global),
        ],
    )
}

/// The second argument is stored at the first one, brought below 65,536.
fn stores(alloc: Global) -> Result<Items<Instr>, NoMemory>
    ensures { IfOk result (λ made. made ≡ stores) }
{
    let place = MemArg {
        align: 2,
        offset: 0,
    };
    listed(
        alloc,
        [
            Instr::LocalGet(0),
            Instr::I32Const(65_532),
            binary(BinOp::And),
            Instr::LocalGet(1),
            Instr::Store(StoreOp::I32, place),
        ],
    )
}

/// One lap of a loop: local 2 goes down by one, where it isn't 0.
fn lap(alloc: Global) -> Result<Items<Instr>, NoMemory>
    ensures { IfOk result (λ made. made ≡ lap) }
{
    listed(
        alloc,
        [
            Instr::LocalGet(2),
            Instr::Num(NumOp::Eqz(Width::W32)),
            Instr::BrIf(1),
            Instr::LocalGet(2),
            Instr::I32Const(1),
            binary(BinOp::Sub),
            Instr::LocalSet(2),
            Instr::Br(0),
        ],
    )
}

/// Local 2 counts down from a number.
fn counts(alloc: Global, from: u32) -> Result<Items<Instr>, NoMemory>
    ensures { IfOk result (λ made. made ≡ counts from) }
{
    let laps = listed(alloc, [Instr::Loop(None, lap(alloc)?)])?;
    listed(
        alloc,
        [
            Instr::I32Const(from),
            Instr::LocalSet(2),
            Instr::Block(None, laps),
        ],
    )
}

/// What a function does by itself.
fn work(alloc: Global, func: u32) -> Result<Items<Instr>, NoMemory>
    ensures { IfOk result (λ made. made ≡ work func) }
{
    match func % 3 {
        0 => adds(alloc, func % 4),
        1 => stores(alloc),
        _ => counts(alloc, func),
    }
}

/// A call of the function before it, where there is one, with the arguments exchanged; its result is the first argument from then on.
fn calls(alloc: Global, func: u32) -> Result<Items<Instr>, NoMemory>
    ensures { IfOk result (λ made. made ≡ calls func) }
{
    if func == 0 {
        return Ok(Items::new(alloc));
    }
    listed(
        alloc,
        [
            Instr::LocalGet(1),
            Instr::LocalGet(0),
            Instr::Call(func - 1),
            Instr::LocalSet(0),
        ],
    )
}

/// The sum of both arguments.
fn sum(alloc: Global) -> Result<Items<Instr>, NoMemory>
    ensures { IfOk result (λ made. made ≡ sum) }
{
    listed(
        alloc,
        [Instr::LocalGet(0), Instr::LocalGet(1), binary(BinOp::Add)],
    )
}

/// The code of a function.
pub fn code(alloc: Global, func: u32) -> Result<Items<Instr>, NoMemory>
    ensures { IfOk result (λ made. made ≡ code func) }
{
    let mut made = work(alloc, func)?;
    made.append(calls(alloc, func)?)?;
    made.append(sum(alloc)?)?;
    Ok(made)
}
