//! Function types as keys.

ghost use Rattle.std.specs.Prelude.{◌≡◌, ◌++◌, IfOk, map};
ghost use Rattle.call_graph.specs.Shapes.{number_of, shape_of};

use std::alloc::Global;
use wasm_types::{FuncType, NoMemory, ValType};

/// Stands between the parameters and the results.
const END: u8 = 4;

/// The number of a value type.
fn number(kind: ValType) -> u8
    ensures { result ≡ number_of kind }
{
    match kind {
        ValType::I32 => 0,
        ValType::I64 => 1,
        ValType::F32 => 2,
        ValType::F64 => 3,
    }
}

/// Puts the numbers of value types at the end.
fn push_numbers(shape: &mut Vec<u8>, kinds: &[ValType]) -> Result<(), NoMemory>
    ensures { IfOk result (λ _. shape.new.items ≡ shape.old.items ++ map number_of kinds.now) }
{
    for kind in kinds {
        shape.push(number(*kind)).map_err(|_| NoMemory)?;
    }
    Ok(())
}

/// A function type as a key: equal types have equal keys, and no others have. It fails only where an allocation is refused.
pub(crate) fn shape(alloc: Global, kind: &FuncType) -> Result<Vec<u8>, NoMemory>
    ensures { IfOk result (λ shape. shape.items ≡ shape_of kind.now) }
{
    let mut shape = Vec::new(alloc);
    push_numbers(&mut shape, kind.params.as_slice())?;
    shape.push(END).map_err(|_| NoMemory)?;
    push_numbers(&mut shape, kind.results.as_slice())?;
    Ok(shape)
}
