//! Whole modules (WebAssembly Core Specification 1.0, section 5.5.15).

ghost use Rattle.std.specs.Prelude.{◌≡◌, ◌<◌, ◌^◌, length, IfOk};
ghost use Rattle.wasm_types.specs.Canon.{canon};
ghost use Rattle.wasm_types.specs.WellFormed.{IsWellFormed};

use crate::sections::{write_bodies, write_list, write_names, write_start, write_tables};
use std::alloc::Global;
use wasm_types::{Module, NoMemory};

/// The canonical spelling of a module, which is shorter than 2^32 bytes. It spells this module and no other
/// (`text_laws::law_canon`), and no spelling of it is shorter.
pub fn encode(alloc: Global, m: &Module) -> Result<Vec<u8>, NoMemory>
    requires well_formed { IsWellFormed m.now }
    requires short { length (canon m.now) < 2 ^ 32 }
    ensures { IfOk result (λ bytes. bytes.items ≡ canon m.now) }
{
    let mut out = Vec::from_slice(alloc, b"\0asm\x01\0\0\0")?;
    let mut room = Vec::new(alloc);
    let mut entry = Vec::new(alloc);
    write_list(&mut out, &mut room, 1, m.types.as_slice())?;
    write_list(&mut out, &mut room, 2, m.imports.as_slice())?;
    write_list(&mut out, &mut room, 3, m.funcs.as_slice())?;
    write_tables(&mut out, &mut room, m.tables.as_slice())?;
    write_list(&mut out, &mut room, 5, m.mems.as_slice())?;
    write_list(&mut out, &mut room, 6, m.globals.as_slice())?;
    write_list(&mut out, &mut room, 7, m.exports.as_slice())?;
    write_start(&mut out, &mut room, m.start)?;
    write_list(&mut out, &mut room, 9, m.elems.as_slice())?;
    write_bodies(&mut out, &mut room, &mut entry, m.bodies.as_slice())?;
    write_list(&mut out, &mut room, 11, m.segments.as_slice())?;
    write_names(&mut out, &mut room, &m.names)?;
    Ok(out)
}
