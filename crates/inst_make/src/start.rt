//! How a run begins (WebAssembly Core Specification 1.0, section 4.5.4).

ghost use Rattle.std.specs.Prelude.{◌≡◌, map};
ghost use Rattle.wasm_types.specs.Spaces.{global_import, imported};
ghost use Rattle.wasm_meaning.specs.Fits.{HaveTypes, global_type};
ghost use Rattle.inst_make.specs.declared.start.InstEnd.TheVariants as InstEnd;
ghost use Rattle.inst_make.specs.Starts.{Instantiates};

use crate::constants::all_globals;
use crate::elems::{empty_table, first_elem_out, write_elems};
use crate::instance::Instance;
use crate::segments::{first_segment_out, write_segments};
use crate::spaces::{memory_limits, table_size};
use run_store::{PAGE_BYTES, PageStore, Script};
use std::alloc::{AllocError, Global};
use thiserror::Error;
use wasm_types::{NoMemory, ValidModule, Value};

/// Why a module isn't instantiated. The first cause that holds is answered.
#[derive(Clone, Copy, Debug, PartialEq, Eq, Error)]
pub enum InstEnd {
    /// The memory begins with more pages than the cap.
    #[error("the memory begins with {min} pages")]
    TooManyPages { min: u32 },
    /// Element segment k passes the end of the table, and none before it does.
    #[error("element segment {k} is out of bounds")]
    ElemOut { k: u32 },
    /// Data segment k passes the end of the memory, and none before it does.
    #[error("data segment {k} is out of bounds")]
    DataOut { k: u32 },
    /// Memory was refused.
    #[error("memory refused")]
    Memory,
}

impl From<NoMemory> for InstEnd {
    ghost from_gives = { λ _ end. end ≡ InstEnd.Memory };

    fn from(_e: NoMemory) -> InstEnd {
        InstEnd::Memory
    }
}

impl From<AllocError> for InstEnd {
    ghost from_gives = { λ _ end. end ≡ InstEnd.Memory };

    fn from(_e: AllocError) -> InstEnd {
        InstEnd::Memory
    }
}

/// The instance that a run begins with, its start function not run yet. Of the imports, the memory has its least number of zero pages, the table its least
/// number of empty entries, and the globals have these values, which have their types. The module's own globals get their first values. Each segment is
/// tested before any is written; where a later one overlaps an earlier one, the later one's contents stay. There may be no more pages than the cap.
///
/// The refusals come in this order: the memory begins with more pages than the cap; an element segment passes the end of the table; a data segment passes the
/// end of the memory. The first such segment is told. A refusal consumes the script.
pub fn instantiate(
    alloc: Global,
    m: &ValidModule,
    globals: &[Value],
    cap: u32,
    script: Script,
) -> Result<Instance, InstEnd>
    requires { HaveTypes globals.now (map global_type (imported global_import m.now.imports)) }
    ensures { Instantiates m.now globals.now cap script result }
{
    let m = m.module();
    let memory = memory_limits(m);
    if memory.min > cap {
        return Err(InstEnd::TooManyPages { min: memory.min });
    }
    let globals = all_globals(alloc, globals, m.globals.as_slice())?;
    let values = globals.as_slice();
    let size = table_size(m);
    if let Some(k) = first_elem_out(m.elems.as_slice(), values, size) {
        return Err(InstEnd::ElemOut { k });
    }
    let long = PAGE_BYTES * u64::from(memory.min);
    if let Some(k) = first_segment_out(m.segments.as_slice(), values, long) {
        return Err(InstEnd::DataOut { k });
    }
    let mut store = PageStore::make(alloc, memory.min, memory.max, cap)?;
    let mut entries = empty_table(alloc, size)?;
    write_elems(entries.as_mut_slice(), m.elems.as_slice(), values);
    write_segments(&mut store, m.segments.as_slice(), values);
    Ok(Instance {
        globals,
        store,
        entries,
        script,
        spent: false,
    })
}
