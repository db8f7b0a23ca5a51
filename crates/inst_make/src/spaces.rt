//! The sizes of a module's memory and table.

ghost use Rattle.std.specs.Prelude.{◌≡◌, slice_get};
ghost use Rattle.typed_runs.specs.Start.{least};
ghost use Rattle.wasm_types.specs.Spaces.{imported, memory_import, mems_of, table_import, tables_of};
ghost use Rattle.inst_make.specs.Instances.{declared_max};

use wasm_types::{Import, ImportKind, Limits, Module};

/// The limits of the first imported memory.
fn imported_memory(imports: &[Import]) -> Option<Limits>
    ensures { result ≡ slice_get (imported memory_import imports.now) 0 }
{
    for import in imports {
        if let ImportKind::Memory(limits) = import.kind {
            return Some(limits);
        }
    }
    None
}

/// The limits of the first imported table.
fn imported_table(imports: &[Import]) -> Option<Limits>
    ensures { result ≡ slice_get (imported table_import imports.now) 0 }
{
    for import in imports {
        if let ImportKind::Table(limits) = import.kind {
            return Some(limits);
        }
    }
    None
}

/// The limits of the memory. Without one, there are no pages, and there may be none.
pub(crate) fn memory_limits(m: &Module) -> Limits
    ensures min { result.min ≡ least (mems_of m.now) }
    ensures max { result.max ≡ declared_max (mems_of m.now) }
{
    match imported_memory(m.imports.as_slice()) {
        Some(limits) => limits,
        None => match m.mems.get(0) {
            Some(limits) => *limits,
            None => Limits {
                min: 0,
                max: Some(0),
            },
        },
    }
}

/// The number of entries that the table begins with: none without one.
pub(crate) fn table_size(m: &Module) -> u32
    ensures { result ≡ least (tables_of m.now) }
{
    match imported_table(m.imports.as_slice()) {
        Some(limits) => limits.min,
        None => match m.tables.get(0) {
            Some(limits) => limits.min,
            None => 0,
        },
    }
}
