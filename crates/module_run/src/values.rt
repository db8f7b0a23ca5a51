//! Arguments by the numbers that their words are.

ghost use Rattle.std.specs.Prelude.{◌≡◌, ◌∷◌, ◌++◌, [], IfOk, OnOk, Some, None, if◌then◌else◌};
ghost use Rattle.wasm_types.specs.Hosts.{in_range};
ghost use Rattle.wasm_meaning.specs.HostCalls.{value_for as valued_for};
ghost use Rattle.module_run.specs.Values.{option_items, values_for};

use ref_interp::value_for;
use std::alloc::Global;
use wasm_types::{NoMemory, ValType, Value};

/// Whether a number stands for a value of the type.
fn is_in_range(kind: ValType, number: i128) -> bool
    ensures { result ≡ in_range kind number }
{
    match kind {
        ValType::I32 => -2_147_483_648 <= number && number < 4_294_967_296,
        ValType::I64 => -9_223_372_036_854_775_808 <= number && number < 18_446_744_073_709_551_616,
        ValType::F32 | ValType::F64 => false,
    }
}

/// The value of a type that a number stands for: none where it is out of range.
fn value_of(kind: ValType, number: i128) -> Option<Value>
    ensures { result ≡ (if in_range kind number then Some (valued_for kind number) else None) }
{
    if is_in_range(kind, number) {
        Some(value_for(kind, number))
    } else {
        None
    }
}

/// Adds a value.
fn push_value(values: &mut Vec<Value>, value: Value) -> Result<(), NoMemory>
    ensures { OnOk result (values.new.items ≡ values.old.items ++ value ∷ []) }
{
    values.push(value).map_err(|_| NoMemory)?;
    Ok(())
}

/// The values of these types that the numbers stand for, a negative one for itself and 2 to the width: none where they differ in count, or one is out of its type's
/// range.
pub fn values_of(
    alloc: Global,
    kinds: &[ValType],
    numbers: &[i128],
) -> Result<Option<Vec<Value>>, NoMemory>
    ensures { IfOk result (λ values. option_items values ≡ values_for kinds.now numbers.now) }
{
    if kinds.len() != numbers.len() {
        return Ok(None);
    }
    let mut values = Vec::new(alloc);
    for i in 0..kinds.len() {
        let Some(value) = value_of(kinds[i], numbers[i]) else {
            return Ok(None);
        };
        push_value(&mut values, value)?;
    }
    Ok(Some(values))
}
