//! What the imported functions do.

ghost use Rattle.std.specs.Prelude.{◌≡◌, ℕ, ◌+◌, ◌^◌, ◌<◌, ◌==◌, ◌&&◌, ◌↔◌, ◌⊎◌, IfOk, length};
ghost use Rattle.std.specs.List.{Contains, list_any};
ghost use Rattle.wasm_types.specs.declared.module.Export.{Export};
ghost use Rattle.wasm_types.specs.Hosts.{global_visible, is_global, is_memory, memory_visible};
ghost use Rattle.wasm_types.specs.Spaces.{global_import, globals_of, imported};
ghost use Rattle.body_check.specs.Numbered.{Describes};
ghost use Rattle.call_graph.specs.declared.deeds.Deed.{Deed};
ghost use Rattle.call_graph.specs.Hosts.{AreHostDeeds, GlobalDeed, MemoryDeed, SeenDeed};

use crate::deeds::{Deed, add};
use body_check::Spaces;
use std::alloc::Global;
use wasm_types::{Export, ExportKind, GlobalType, Loc, Module, NoMemory};

/// Whether an export is the memory.
fn is_of_memory(export: &Export) -> bool
    ensures { result ≡ is_memory export.now.kind }
{
    matches!(export.kind, ExportKind::Memory)
}

/// Whether an export is the global of that number.
fn is_of_global(export: &Export, global: u32) -> bool
    ensures { result ≡ (is_global export.now.kind && (export.now.index == global)) }
{
    matches!(export.kind, ExportKind::Global) && export.index == global
}

/// Whether the memory is exported.
fn exports_memory(exports: &[Export]) -> bool
    ensures { result ≡ list_any (λ (e : Export). is_memory e.kind) exports.now }
{
    exports.iter().any(|export| is_of_memory(export))
}

/// Whether a global is exported.
fn exports_global(exports: &[Export], global: u32) -> bool
    ensures { result ≡ list_any (λ (e : Export). is_global e.kind && (e.index == global)) exports.now }
{
    exports.iter().any(|export| is_of_global(export, global))
}

/// Whether the host sees the memory.
fn is_memory_seen(m: &Module, spaces: &Spaces) -> bool
    requires { Describes spaces.now m.now }
    ensures { result ≡ memory_visible m.now }
{
    spaces.memories.len() > m.mems.len() || exports_memory(m.exports.as_slice())
}

/// Whether the host sees a global of that type, where so many are imported.
fn is_global_seen(m: &Module, imports: usize, global: u32, kind: GlobalType) -> bool
    requires { imports ≡ length (imported global_import m.now.imports) }
    ensures { result ≡ global_visible m.now global kind }
{
    kind.mutable && ((global as usize) < imports || exports_global(m.exports.as_slice(), global))
}

/// Puts what a call of an imported function does to the memory at the end.
fn add_memory(m: &Module, spaces: &Spaces, deeds: &mut Vec<Deed>) -> Result<(), NoMemory>
    requires { Describes spaces.now m.now }
    ensures { IfOk result (λ _. (d : Deed) → Contains deeds.new.items d ↔ (Contains deeds.old.items d ⊎ MemoryDeed m.now d)) }
{
    if is_memory_seen(m, spaces) {
        add(
            deeds,
            &[
                Deed::Touches(Loc::Mem),
                Deed::Touches(Loc::Size),
                Deed::Writes(Loc::Mem),
            ],
        )?;
    }
    Ok(())
}

/// Puts what a call of an imported function does to a global at the end.
fn add_global(deeds: &mut Vec<Deed>, seen: bool, global: u32) -> Result<(), NoMemory>
    ensures { IfOk result (λ _. (d : Deed) → Contains deeds.new.items d ↔ (Contains deeds.old.items d ⊎ GlobalDeed seen global d)) }
{
    if seen {
        add(
            deeds,
            &[
                Deed::Touches(Loc::Global(global)),
                Deed::Writes(Loc::Global(global)),
            ],
        )?;
    }
    Ok(())
}

/// Puts what a call of an imported function does to globals at the end.
fn add_globals(m: &Module, spaces: &Spaces, deeds: &mut Vec<Deed>) -> Result<(), NoMemory>
    requires described { Describes spaces.now m.now }
    requires few { length (globals_of m.now) < 2 ^ 32 }
    ensures { IfOk result (λ _. (d : Deed) → Contains deeds.new.items d ↔ (Contains deeds.old.items d ⊎ SeenDeed m.now d)) }
{
    let imports = spaces.globals.len() - m.globals.len();
    for (global, kind) in spaces.globals.iter().enumerate() {
        let seen = is_global_seen(m, imports, global as u32, *kind);
        add_global(deeds, seen, global as u32)?;
    }
    Ok(())
}

/// What a call of any imported function does. It fails only where an allocation is refused.
pub(crate) fn host_deeds(alloc: Global, m: &Module, spaces: &Spaces) -> Result<Vec<Deed>, NoMemory>
    requires described { Describes spaces.now m.now }
    requires few { length (globals_of m.now) < 2 ^ 32 }
    ensures { IfOk result (λ deeds. AreHostDeeds m.now deeds.items) }
{
    let mut deeds = Vec::new(alloc);
    add(
        &mut deeds,
        &[Deed::Touches(Loc::Host), Deed::Writes(Loc::Host)],
    )?;
    add_memory(m, spaces, &mut deeds)?;
    add_globals(m, spaces, &mut deeds)?;
    Ok(deeds)
}
