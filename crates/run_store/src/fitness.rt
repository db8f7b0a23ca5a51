//! Which replies fit an imported function: docs/MEANING.md, "The host".

ghost use Rattle.std.specs.Prelude.{◌≡◌, ◌+◌, ◌*◌, ◌<◌, ◌==◌, ◌&&◌, length, slice_get};
ghost use Rattle.std.specs.List.{list_all, list_any};
ghost use Rattle.wasm_types.specs.declared.module.Export.{Export};
ghost use Rattle.wasm_types.specs.Hosts.{bytes_fit, global_fits, in_range, is_global, is_memory, memory_visible, result_fits, seen_from};
ghost use Rattle.wasm_types.specs.Spaces.{global_import, globals_of, import_count, imported, memory_import};
ghost use Rattle.run_store.specs.Fits.{FindsGlobal, fits_import};

use crate::pages::PAGE_BYTES;
use sqlite_items::Items;
use wasm_types::{
    Export, ExportKind, GlobalType, Import, ImportKind, Module, Reply, ValType, ValidModule,
};

/// Whether a reply fits the imported function of that number, where the memory has so many pages: its result and the values for globals are in range, it
/// writes only what the host sees, and its bytes lie within the memory.
pub fn fits(m: &ValidModule, import: u32, reply: &Reply, pages: u32) -> bool
    requires { import < import_count m.now }
    ensures { result ≡ fits_import m.now import reply.now pages }
{
    let m = m.module();
    let Some(kind) = m.func_type(import) else {
        return false;
    };
    let visible = is_memory_visible(m);
    let long = PAGE_BYTES * u64::from(pages);
    is_result_fit(kind.results.as_slice(), reply.result)
        && are_globals_fit(m, reply.globals.as_slice())
        && are_bytes_fit(visible, long, reply.bytes.as_slice())
}

/// Whether a number stands for a value of the type: a negative one for itself and 2 to the width.
fn is_in_range(kind: ValType, number: i128) -> bool
    ensures { result ≡ in_range kind number }
{
    match kind {
        ValType::I32 => -2_147_483_648 <= number && number < 4_294_967_296,
        ValType::I64 => -9_223_372_036_854_775_808 <= number && number < 18_446_744_073_709_551_616,
        ValType::F32 | ValType::F64 => false,
    }
}

/// Whether there is a result exactly where the type has one, and in its range.
fn is_result_fit(kinds: &[ValType], number: Option<i128>) -> bool
    ensures { result ≡ result_fits kinds.now number }
{
    match (kinds, number) {
        ([], None) => true,
        ([kind], Some(number)) => is_in_range(*kind, number),
        _ => false,
    }
}

/// How many of the imports are memories.
fn count_memories(imports: &[Import]) -> usize
    ensures { result ≡ length (imported memory_import imports.now) }
{
    let mut count = 0;
    for import in imports {
        if let ImportKind::Memory(_) = import.kind {
            count += 1;
        }
    }
    count
}

/// Whether an export is the memory.
fn is_of_memory(export: &Export) -> bool
    ensures { result ≡ is_memory export.now.kind }
{
    matches!(export.kind, ExportKind::Memory)
}

/// Whether an export is the global of that number.
fn is_of_global(export: &Export, global: u32) -> bool
    ensures { result ≡ (is_global export.now.kind && (export.now.index == global)) }
{
    matches!(export.kind, ExportKind::Global) && export.index == global
}

/// Whether the host sees the memory.
fn is_memory_visible(m: &Module) -> bool
    ensures { result ≡ memory_visible m.now }
{
    count_memories(m.imports.as_slice()) > 0 || exports_memory(m.exports.as_slice())
}

/// Whether the memory is exported.
fn exports_memory(exports: &[Export]) -> bool
    ensures { result ≡ list_any (λ (e : Export). is_memory e.kind) exports.now }
{
    exports.iter().any(|export| is_of_memory(export))
}

/// Whether a global is exported.
fn exports_global(exports: &[Export], global: u32) -> bool
    ensures { result ≡ list_any (λ (e : Export). is_global e.kind && (e.index == global)) exports.now }
{
    exports.iter().any(|export| is_of_global(export, global))
}

/// The type of the imported global of that number, or how many numbers are left for the globals that are not imported.
fn imported_global(imports: &[Import], global: u32) -> Result<GlobalType, u32>
    ensures { FindsGlobal result global (imported global_import imports.now) }
{
    let mut left = global;
    for import in imports {
        if let ImportKind::Global(kind) = import.kind {
            if left == 0 {
                return Ok(kind);
            }
            left -= 1;
        }
    }
    Err(left)
}

/// Whether the host may write to a global of the type, which is shared with it or not, and the number stands for a value.
fn is_seen_fit(kind: GlobalType, shared: bool, number: i128) -> bool
    ensures { result ≡ ((kind.mutable && shared) && in_range kind.kind number) }
{
    kind.mutable && shared && is_in_range(kind.kind, number)
}

/// Whether the host sees that global, and the number stands for a value of its type.
fn is_global_fit(m: &Module, global: u32, number: i128) -> bool
    ensures { result ≡ global_fits (slice_get (seen_from m.now 0 (globals_of m.now)) global) number }
{
    match imported_global(m.imports.as_slice(), global) {
        Ok(kind) => is_seen_fit(kind, true, number),
        Err(own) => match m.globals.get(own as usize) {
            Some(own) => is_seen_fit(
                own.kind,
                exports_global(m.exports.as_slice(), global),
                number,
            ),
            None => false,
        },
    }
}

/// Whether the host sees these globals, and the numbers stand for values of their types.
fn are_globals_fit(m: &Module, writes: &[(u32, i128)]) -> bool
    ensures { result ≡ list_all (λ w. global_fits (slice_get (seen_from m.now 0 (globals_of m.now)) w.0) w.1) writes.now }
{
    writes
        .iter()
        .all(|write| is_global_fit(m, write.0, write.1))
}

/// Whether so many bytes from an address on lie within a memory of this length that the host sees.
fn is_range_fit(visible: bool, long: u64, at: u32, bytes: &[u8]) -> bool
    ensures { result ≡ bytes_fit visible long (at, bytes.now) }
{
    visible && u64::from(at) + bytes.len() as u64 <= long
}

/// Whether these bytes lie within a memory of this length that the host sees.
fn are_bytes_fit(visible: bool, long: u64, writes: &[(u32, Items<u8>)]) -> bool
    ensures { result ≡ list_all (bytes_fit visible long) writes.now }
{
    writes.iter().all(|write| is_range_fit(visible, long, write.0, write.1.as_slice()))
}
