//! The bodies of functions.

ghost use Rattle.std.specs.Prelude.{◌≡◌, ◌↔◌, ◌≤◌, ◌<◌, ◌^◌, IfOk, IsTrue, length};
ghost use Rattle.wasm_types.specs.declared.place.Part.TheVariants as part;
ghost use Rattle.wasm_types.specs.Sections.{local_count};
ghost use Rattle.wasm_types.specs.Sizes.{HasAtMost};
ghost use Rattle.wasm_types.specs.Validity.{Holds, IsValidBody};
ghost use Rattle.wasm_types.specs.WellFormed.{IsWellFormed};
ghost use Rattle.body_check.specs.Numbered.{Describes, FewResults};

use crate::check::check_inner;
use crate::locals::Locals;
use crate::place::Place;
use crate::spaces::Spaces;
use std::alloc::Global;
use wasm_types::{Body, FuncType, Module, NoMemory};

/// Whether a body is valid as that of a function of this type in the module (docs/VALIDITY.md), where `spaces` are the module's. The check calls
/// itself for each block that it goes into. An error comes only where memory is refused.
pub fn is_valid_body(
    alloc: Global,
    m: &Module,
    spaces: &Spaces,
    kind: &FuncType,
    body: &Body,
) -> Result<bool, NoMemory>
    requires described { Describes spaces.now m.now }
    requires results { FewResults m.now }
    requires one_result { length kind.now.results ≤ 1 }
    requires params { length kind.now.params < 2 ^ 31 }
    requires locals { local_count body.now.locals < 2 ^ 32 }
    ensures { IfOk result (λ ok. IsTrue ok ↔ IsValidBody m.now kind.now body.now) }
{
    let result = kind.results.get(0).copied();
    let locals = Locals::new(alloc, kind.params.as_slice(), body.locals.as_slice())?;
    let place = Place {
        module: m,
        spaces,
        locals,
        result,
    };
    let mut labels = Vec::new(alloc);
    let code = body.code.as_slice();
    let valid = check_inner(alloc, &place, &mut labels, result, result, code)?;
    Ok(valid)
}

/// Whether the body of function `func` is valid (docs/VALIDITY.md): true also where the module has no such function of its own, or no type for it, since
/// nothing is invalid there. An error comes only where memory is refused.
pub fn check_body(alloc: Global, m: &Module, func: u32) -> Result<bool, NoMemory>
    requires well_formed { IsWellFormed m.now }
    requires entries { HasAtMost 0x7FFF_FFFF m.now }
    requires results { FewResults m.now }
    ensures { IfOk result (λ ok. IsTrue ok ↔ Holds m.now (part.FuncAt func)) }
{
    let Some(kind) = m.func_type(func) else {
        return Ok(true);
    };
    let Some(body) = m.body(func) else {
        return Ok(true);
    };
    let spaces = Spaces::new(alloc, m)?;
    let valid = is_valid_body(alloc, m, &spaces, kind, body)?;
    Ok(valid)
}
