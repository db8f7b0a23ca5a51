//! Exports (section 3.4.8).

ghost use Rattle.std.specs.Prelude.{◌↔◌, ◌<◌, IfOk, IsTrue};
ghost use Rattle.wasm_types.specs.declared.place.Part.TheVariants as part;
ghost use Rattle.wasm_types.specs.Sizes.{HasAtMost};
ghost use Rattle.wasm_types.specs.Validity.{Holds, count_of_kind};
ghost use Rattle.body_check.specs.Numbered.{Describes};
ghost use Rattle.wasm_validate.specs.First.{FindsNumber};

use body_check::Spaces;
use indexmap::IndexSet;
use std::alloc::Global;
use wasm_types::{Export, ExportKind, Module, NoMemory};

/// Whether what is exported is there.
fn is_known(m: &Module, spaces: &Spaces, export: &Export) -> bool
    requires { Describes spaces.now m.now }
    ensures { IsTrue result ↔ export.now.index < count_of_kind m.now export.now.kind }
{
    let count = match export.kind {
        ExportKind::Func => spaces.funcs.len(),
        ExportKind::Table => spaces.tables.len(),
        ExportKind::Memory => spaces.memories.len(),
        ExportKind::Global => spaces.globals.len(),
    };
    (export.index as usize) < count
}

/// The first export that isn't there or has the name of an earlier one. An error comes only where memory is refused.
pub(crate) fn first_export(
    alloc: Global,
    m: &Module,
    spaces: &Spaces,
) -> Result<Option<u32>, NoMemory>
    requires described { Describes spaces.now m.now }
    requires entries { HasAtMost 0x7FFF_FFFF m.now }
    ensures { IfOk result (λ found. FindsNumber (λ k. Holds m.now (part.ExportAt k)) found) }
{
    let mut seen = IndexSet::new(alloc);
    for (k, export) in m.exports.as_slice().iter().enumerate() {
        if !is_known(m, spaces, export) {
            return Ok(Some(k as u32));
        }
        let name = Vec::from_slice(alloc, export.name.bytes.as_slice())?;
        let Ok(is_new) = seen.insert(name) else {
            return Err(NoMemory);
        };
        if !is_new {
            return Ok(Some(k as u32));
        }
    }
    Ok(None)
}
