//! Tables and memories: their limits (sections 3.2.1, 3.2.3 and 3.2.4), and at most one of each (section 3.4.10).

ghost use Rattle.std.specs.Prelude.{◌↔◌, IsTrue};
ghost use Rattle.wasm_types.specs.declared.place.Part.TheVariants as part;
ghost use Rattle.wasm_types.specs.Validity.{Holds, LimitsHold, LimitsWithin, most_pages};
ghost use Rattle.body_check.specs.Numbered.{Describes};

use body_check::Spaces;
use wasm_types::{Limits, MOST_PAGES, Module};

/// Whether the minimum is at most the maximum.
pub(crate) fn limits_hold(limits: Limits) -> bool
    ensures { IsTrue result ↔ LimitsHold limits }
{
    match limits.max {
        Some(max) => limits.min <= max,
        None => true,
    }
}

/// Whether the minimum is at most the maximum, and both are at most the most pages of a memory.
pub(crate) fn pages_hold(limits: Limits) -> bool
    ensures { IsTrue result ↔ LimitsWithin most_pages limits }
{
    match limits.max {
        Some(max) => limits.min <= max && max <= MOST_PAGES,
        None => limits.min <= MOST_PAGES,
    }
}

/// Whether there is at most one table, imported or own, and the limits of the own ones hold.
pub(crate) fn tables_hold(m: &Module, spaces: &Spaces) -> bool
    requires { Describes spaces.now m.now }
    ensures { IsTrue result ↔ Holds m.now part.TableAll }
{
    let own = m.tables.as_slice();
    spaces.tables.len() <= 1 && own.iter().all(|limits| limits_hold(*limits))
}

/// Whether there is at most one memory, imported or own, and the limits of the own ones hold.
pub(crate) fn memories_hold(m: &Module, spaces: &Spaces) -> bool
    requires { Describes spaces.now m.now }
    ensures { IsTrue result ↔ Holds m.now part.MemoryAll }
{
    let own = m.mems.as_slice();
    spaces.memories.len() <= 1 && own.iter().all(|limits| pages_hold(*limits))
}
