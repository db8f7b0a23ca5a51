//! The whole module.

ghost use Rattle.std.specs.Prelude.{◌≡◌, ◌<◌, ◌≤◌, ◌^◌, IfOk, length, replicate};
ghost use Rattle.wasm_types.specs.Canon.{canon};
ghost use Rattle.wasm_types.specs.Subset.{WithinLimits, most_read};
ghost use Rattle.module_mill.specs.Mill.{body, counter, below, func_type, mill};

use crate::code::{code, listed};
use sqlite_items::Items;
use std::alloc::Global;
use wasm_types::{
    Body, FuncType, GlobalDef, GlobalType, Instr, Limits, LocalRun, Module, NoMemory, ValType,
    ValidModule,
};

/// The most functions that are made.
pub const MOST_MILLED: u32 = 2_000;

fn func_type(alloc: Global) -> Result<FuncType, NoMemory>
    ensures { IfOk result (λ made. made ≡ func_type) }
{
    let params = listed(alloc, [ValType::I32, ValType::I32])?;
    let results = listed(alloc, [ValType::I32])?;
    Ok(FuncType { params, results })
}

fn counter(alloc: Global) -> Result<GlobalDef, NoMemory>
    ensures { IfOk result (λ made. made ≡ counter) }
{
    let init = listed(alloc, [Instr::I32Const(0)])?;
    let kind = GlobalType {
        kind: ValType::I32,
        mutable: true,
    };
    Ok(GlobalDef { kind, init })
}

fn counters(alloc: Global) -> Result<Items<GlobalDef>, NoMemory>
    ensures { IfOk result (λ made. made ≡ replicate 4 counter) }
{
    let (first, second) = (counter(alloc)?, counter(alloc)?);
    let (third, fourth) = (counter(alloc)?, counter(alloc)?);
    listed(alloc, [first, second, third, fourth])
}

fn body(alloc: Global, func: u32) -> Result<Body, NoMemory>
    ensures { IfOk result (λ made. made ≡ body func) }
{
    let run = LocalRun {
        count: 1,
        kind: ValType::I32,
    };
    let locals = listed(alloc, [run])?;
    let code = code(alloc, func)?;
    Ok(Body { locals, code })
}

fn bodies(alloc: Global, count: u32) -> Result<Items<Body>, NoMemory>
    ensures { IfOk result (λ made. made ≡ below body count) }
{
    let mut made = Items::new(alloc);
    for func in 0..count {
        made.push(body(alloc, func)?)?;
    }
    Ok(made)
}

/// Every function has type 0.
fn type_numbers(alloc: Global, count: u32) -> Result<Items<u32>, NoMemory>
    ensures { IfOk result (λ made. made ≡ replicate count 0) }
{
    let numbers = vec![in alloc; 0u32; count as usize].map_err(|_| NoMemory)?;
    Ok(Items::from_vec(numbers))
}

fn whole_module(alloc: Global, count: u32) -> Result<Module, NoMemory>
    ensures { IfOk result (λ made. made ≡ mill count) }
{
    let pages = Limits { min: 1, max: None };
    Ok(Module {
        types: listed(alloc, [func_type(alloc)?])?,
        imports: Items::new(alloc),
        funcs: type_numbers(alloc, count)?,
        tables: Items::new(alloc),
        mems: listed(alloc, [pages])?,
        globals: counters(alloc)?,
        exports: Items::new(alloc),
        start: None,
        elems: Items::new(alloc),
        bodies: bodies(alloc, count)?,
        segments: Items::new(alloc),
        names: None,
    })
}

/// A valid module of so many functions, each of which but the first calls the one before it (docs/FORMAT.md). It fails only where an allocation is refused.
pub fn mill(alloc: Global, count: u32) -> Result<ValidModule, NoMemory>
    requires { count ≤ MOST_MILLED }
    ensures mill { IfOk result (λ made. made ≡ mill count) }
    ensures limits { IfOk result (λ made. WithinLimits most_read made) }
    ensures short { IfOk result (λ made. length (canon made) < 2 ^ 28) }
{
    let made = whole_module(alloc, count)?;
    Ok(ValidModule::seal(made))
}
