//! The values of constant expressions, and of the globals at the start (WebAssembly Core Specification 1.0, section 4.5.4).

ghost use Rattle.std.specs.Prelude.{◌≡◌, IfOk};
ghost use Rattle.typed_runs.specs.Start.{begins, constant};
ghost use Rattle.wasm_types.specs.Hosts.{is_within};
ghost use Rattle.inst_make.specs.Starts.{with_own};

use std::alloc::{AllocError, Global};
use wasm_types::{GlobalDef, Instr, Value};

/// The value of a constant expression, of the globals' values.
fn value_of(globals: &[Value], code: &[Instr]) -> Value
    ensures { result ≡ constant globals.now code.now }
{
    let [instr] = code else {
        return Value::I32(0);
    };
    match instr {
        Instr::I32Const(number) => Value::I32(*number),
        Instr::I64Const(number) => Value::I64(*number),
        Instr::GlobalGet(global) => match globals.get(*global as usize) {
            Some(value) => *value,
            None => Value::I32(0),
        },
        _ => Value::I32(0),
    }
}

/// Where a segment of that offset begins.
pub(crate) fn offset_of(globals: &[Value], code: &[Instr]) -> u64
    ensures { result ≡ begins globals.now code.now }
{
    match value_of(globals, code) {
        Value::I32(number) => u64::from(number),
        Value::I64(number) => number,
    }
}

/// Whether so many things from a place on lie within a length.
pub(crate) fn lies_within(at: u64, count: usize, long: u64) -> bool
    ensures { result ≡ is_within at count long }
{
    at <= long && count as u64 <= long - at
}

/// The values of all globals: those of the imported ones are given, and those of the module's own are worked out from them.
pub(crate) fn all_globals(
    alloc: Global,
    imported: &[Value],
    own: &[GlobalDef],
) -> Result<Vec<Value>, AllocError>
    ensures { IfOk result (λ globals. globals.items ≡ with_own imported.now own.now) }
{
    let mut globals = Vec::from_slice(alloc, imported)?;
    for global in own {
        globals.push(value_of(imported, global.init.as_slice()))?;
    }
    Ok(globals)
}
