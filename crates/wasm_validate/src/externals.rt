//! What is imported (section 3.4.9).

ghost use Rattle.std.specs.Prelude.{◌↔◌, IsTrue};
ghost use Rattle.wasm_types.specs.declared.place.Part.TheVariants as part;
ghost use Rattle.wasm_types.specs.Sizes.{HasAtMost};
ghost use Rattle.wasm_types.specs.Validity.{Holds, ImportHolds};
ghost use Rattle.wasm_validate.specs.First.{FindsNumber};

use crate::storage::{limits_hold, pages_hold};
use wasm_types::{ImportKind, Module};

/// Whether what is imported is valid: the type of a function is known, and the limits of a table or a memory hold.
fn import_holds(m: &Module, kind: ImportKind) -> bool
    ensures { IsTrue result ↔ ImportHolds m.now kind }
{
    match kind {
        ImportKind::Func(kind) => (kind as usize) < m.types.len(),
        ImportKind::Table(limits) => limits_hold(limits),
        ImportKind::Memory(limits) => pages_hold(limits),
        ImportKind::Global(_) => true,
    }
}

/// The first import that isn't valid.
pub(crate) fn first_import(m: &Module) -> Option<u32>
    requires { HasAtMost 0x7FFF_FFFF m.now }
    ensures { FindsNumber (λ k. Holds m.now (part.ImportAt k)) result }
{
    let imports = m.imports.as_slice();
    let at = imports
        .iter()
        .position(|import| !import_holds(m, import.kind))?;
    Some(at as u32)
}
