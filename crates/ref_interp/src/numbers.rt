//! Numbers of values, and values of numbers.

ghost use Rattle.std.specs.Prelude.{◌≡◌, ◌<◌, ◌^◌, true};
ghost use Rattle.wasm_types.specs.Hosts.{in_range};
ghost use Rattle.wasm_meaning.specs.HostCalls.{value_for, width_bits};
ghost use Rattle.wasm_meaning.specs.Operations.{number_of as numbered, value_in as valued};
ghost use Rattle.ref_interp.specs.World.{kind_of, value_like as valued_like};

use num_ops::wrap;
use wasm_types::{ValType, Value};

/// The number of a value, below 2 to its width.
pub(crate) fn number_of(value: Value) -> u64
    ensures { result ≡ numbered value }
{
    match value {
        Value::I32(number) => number as u64,
        Value::I64(number) => number,
    }
}

/// The value of an integer type with this number, taken modulo 2 to the width.
pub(crate) fn value_in(kind: ValType, number: u64) -> Value
    ensures { result ≡ valued kind number }
{
    match kind {
        ValType::I64 => Value::I64(number),
        _ => Value::I32(wrap(number)),
    }
}

/// The value of the same type as another with this number, taken modulo 2 to the width.
pub(crate) fn value_like(old: Value, number: u64) -> Value
    ensures { result ≡ valued_like old number }
{
    match old {
        Value::I32(_) => Value::I32(wrap(number)),
        Value::I64(_) => Value::I64(number),
    }
}

/// The type of a value.
pub(crate) fn kind_of(value: Value) -> ValType
    ensures { result ≡ kind_of value }
{
    match value {
        Value::I32(_) => ValType::I32,
        Value::I64(_) => ValType::I64,
    }
}

/// The value of the type that a number in its range stands for: a negative one stands for itself and 2 to the width.
pub fn value_for(kind: ValType, number: i128) -> Value
    requires { in_range kind number ≡ true }
    ensures { result ≡ value_for kind number }
{
    match kind {
        ValType::I64 => {
            let shifted = if number < 0 {
                number + 0x1_0000_0000_0000_0000
            } else {
                number
            };
            Value::I64(shifted as u64)
        }
        _ => {
            let shifted = if number < 0 {
                number + 0x1_0000_0000
            } else {
                number
            };
            Value::I32(shifted as u32)
        }
    }
}
