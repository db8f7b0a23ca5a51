//! Functions of the module itself (section 3.4.1), and the one that is called at the start (section 3.4.7).

ghost use Rattle.std.specs.Prelude.{◌≡◌, ◌↔◌, ◌<◌, ◌≤◌, ◌^◌, IfOk, IsTrue, length, slice_get};
ghost use Rattle.std.specs.Option.{option_copied};
ghost use Rattle.wasm_types.specs.declared.module.FuncType.{FuncType};
ghost use Rattle.wasm_types.specs.declared.place.Part.TheVariants as part;
ghost use Rattle.wasm_types.specs.Sections.{local_count};
ghost use Rattle.wasm_types.specs.Sizes.{HasAtMost};
ghost use Rattle.wasm_types.specs.Spaces.{type_numbered};
ghost use Rattle.wasm_types.specs.Validity.{Holds, IsValidBody};
ghost use Rattle.wasm_types.specs.WellFormed.{IsWellFormed};
ghost use Rattle.body_check.specs.Numbered.{Describes, FewResults};
ghost use Rattle.wasm_validate.specs.First.{FindsNumber};

use crate::imports::first_own_func;
use body_check::{Spaces, is_valid_body};
use std::alloc::Global;
use wasm_types::{Body, FuncType, Module, NoMemory};

/// Whether the function that is called at the start, if there is one, takes and leaves nothing.
pub(crate) fn start_holds(m: &Module) -> bool
    ensures { IsTrue result ↔ Holds m.now part.StartAt }
{
    let Some(func) = m.start else {
        return true;
    };
    match m.func_type(func) {
        Some(kind) => kind.params.is_empty() && kind.results.is_empty(),
        None => false,
    }
}

/// The type of an own function, where there is one.
fn own_type(m: &Module, own: usize) -> Option<&FuncType>
    ensures { option_copied result ≡ type_numbered m.now.types (slice_get m.now.funcs own) }
{
    m.types.get(*m.funcs.get(own)? as usize)
}

/// Whether the body of an own function is valid: true also where the function has no type, since nothing is invalid there. An error comes only where
/// memory is refused.
fn body_holds(
    alloc: Global,
    m: &Module,
    spaces: &Spaces,
    own: usize,
    body: &Body,
) -> Result<bool, NoMemory>
    requires described { Describes spaces.now m.now }
    requires results { FewResults m.now }
    requires entries { HasAtMost 0x7FFF_FFFF m.now }
    requires locals { local_count body.now.locals < 2 ^ 32 }
    ensures { IfOk result (λ ok. IsTrue ok ↔ ((F : FuncType) → type_numbered m.now.types (slice_get m.now.funcs own) ≡ Some F → IsValidBody m.now F body.now)) }
{
    match own_type(m, own) {
        Some(kind) => is_valid_body(alloc, m, spaces, kind, body),
        None => Ok(true),
    }
}

/// The first own function whose body isn't valid. An error comes only where memory is refused.
pub(crate) fn first_func(
    alloc: Global,
    m: &Module,
    spaces: &Spaces,
) -> Result<Option<u32>, NoMemory>
    requires described { Describes spaces.now m.now }
    requires results { FewResults m.now }
    requires well_formed { IsWellFormed m.now }
    requires entries { HasAtMost 0x7FFF_FFFF m.now }
    ensures { IfOk result (λ found. FindsNumber (λ f. Holds m.now (part.FuncAt f)) found) }
{
    let imported = first_own_func(m, spaces);
    for (k, body) in m.bodies.as_slice().iter().enumerate() {
        let holds = body_holds(alloc, m, spaces, k, body)?;
        if !holds {
            return Ok(Some(imported + k as u32));
        }
    }
    Ok(None)
}
