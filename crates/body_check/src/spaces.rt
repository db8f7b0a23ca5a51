//! The functions, tables, memories and globals of a module, the imported ones first.

ghost use Rattle.std.specs.Prelude.{◌≡◌, ◌++◌, IfOk, map};
ghost use Rattle.wasm_types.specs.Spaces.{func_import, table_import, memory_import, global_import, imported, global_kind};
ghost use Rattle.body_check.specs.Numbered.{Describes};

use std::alloc::Global;
use wasm_types::{GlobalDef, GlobalType, Import, ImportKind, Limits, Module, NoMemory};

/// What the parts of a module name by number: the type number of each function, the limits of each table and memory, and the type of each global.
#[derive(Drop)]
pub struct Spaces {
    pub funcs: Vec<u32>,
    pub tables: Vec<Limits>,
    pub memories: Vec<Limits>,
    pub globals: Vec<GlobalType>,
}

/// What is imported.
fn imports_of(alloc: Global, imports: &[Import]) -> Result<Spaces, NoMemory>
    ensures funcs { IfOk result (λ s. s.funcs.items ≡ imported func_import imports.now) }
    ensures tables { IfOk result (λ s. s.tables.items ≡ imported table_import imports.now) }
    ensures memories { IfOk result (λ s. s.memories.items ≡ imported memory_import imports.now) }
    ensures globals { IfOk result (λ s. s.globals.items ≡ imported global_import imports.now) }
{
    let mut funcs = Vec::new(alloc);
    let mut tables = Vec::new(alloc);
    let mut memories = Vec::new(alloc);
    let mut globals = Vec::new(alloc);
    for import in imports {
        match import.kind {
            ImportKind::Func(kind) => funcs.push(kind).map_err(|_| NoMemory)?,
            ImportKind::Table(limits) => tables.push(limits).map_err(|_| NoMemory)?,
            ImportKind::Memory(limits) => memories.push(limits).map_err(|_| NoMemory)?,
            ImportKind::Global(kind) => globals.push(kind).map_err(|_| NoMemory)?,
        }
    }
    Ok(Spaces {
        funcs,
        tables,
        memories,
        globals,
    })
}

/// Puts the types of the module's own globals after those of the imported ones.
fn push_own(types: &mut Vec<GlobalType>, globals: &[GlobalDef]) -> Result<(), NoMemory>
    ensures { IfOk result (λ _. types.new.items ≡ types.old.items ++ map global_kind globals.now) }
{
    for global in globals {
        types.push(global.kind).map_err(|_| NoMemory)?;
    }
    Ok(())
}

impl Spaces {
    /// Those of the module: an error only where memory is refused.
    pub fn new(alloc: Global, m: &Module) -> Result<Spaces, NoMemory>
        ensures { IfOk result (λ s. Describes s m.now) }
    {
        let mut spaces = imports_of(alloc, m.imports.as_slice())?;
        spaces.funcs.extend_from_slice(m.funcs.as_slice())?;
        spaces.tables.extend_from_slice(m.tables.as_slice())?;
        spaces.memories.extend_from_slice(m.mems.as_slice())?;
        push_own(&mut spaces.globals, m.globals.as_slice())?;
        Ok(spaces)
    }
}
