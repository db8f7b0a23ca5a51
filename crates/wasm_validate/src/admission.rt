//! Whole modules (section 3.4).

ghost use Rattle.std.specs.Prelude.{◌≡◌};
ghost use Rattle.wasm_types.specs.Sizes.{HasAtMost};
ghost use Rattle.wasm_types.specs.Subset.{NestsAtMost, most_nesting};
ghost use Rattle.wasm_types.specs.WellFormed.{IsWellFormed};
ghost use Rattle.wasm_validate.specs.Admission.{Admits};

use crate::floats::first_float;
use crate::limits::first_over;
use crate::parts::first_invalid;
use crate::refusal::AdmitEnd;
use body_check::Spaces;
use std::alloc::Global;
use wasm_types::{Module, NoMemory, ValidModule};

/// The module, sealed, where it is valid, has no float and keeps the limits of what is read (docs/VALIDITY.md). Else it is handed back with the first
/// refusal in the order of `AdmitEnd`.
pub fn admit(alloc: Global, m: Module) -> Result<ValidModule, (Module, AdmitEnd)>
    requires well_formed { IsWellFormed m }
    requires entries { HasAtMost 0x7FFF_FFFF m }
    requires nesting { NestsAtMost most_nesting m }
    ensures { Admits m result }
{
    let Ok(spaces) = Spaces::new(alloc, &m) else {
        return Err((m, AdmitEnd::Memory));
    };
    if let Some(part) = first_float(&m, &spaces) {
        return Err((m, AdmitEnd::Float { part }));
    }
    if let Some(over) = first_over(&m, &spaces) {
        return Err((
            m,
            AdmitEnd::Limit {
                which: over.which,
                at: over.at,
                count: over.count,
            },
        ));
    }
    match first_invalid(alloc, &m, &spaces) {
        Ok(None) => Ok(ValidModule::seal(m)),
        Ok(Some(part)) => Err((m, AdmitEnd::Invalid { part })),
        Err(NoMemory) => Err((m, AdmitEnd::Memory)),
    }
}
