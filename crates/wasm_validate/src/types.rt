//! Types, and the types of the module's own functions.

ghost use Rattle.std.specs.Prelude.{◌↔◌, ◌≤◌, ◌<◌, IfSome, IsTrue, length, slice_get};
ghost use Rattle.wasm_types.specs.declared.place.Part.TheVariants as part;
ghost use Rattle.wasm_types.specs.Sizes.{HasAtMost};
ghost use Rattle.wasm_types.specs.Validity.{Holds};
ghost use Rattle.body_check.specs.Numbered.{Describes};
ghost use Rattle.wasm_validate.specs.First.{FindsNumber};

use crate::imports::first_own_func;
use body_check::Spaces;
use wasm_types::{FuncType, Module};

/// Whether a type has at most one result (section 3.2.2).
fn has_few_results(kind: &FuncType) -> bool
    ensures { IsTrue result ↔ length kind.now.results ≤ 1 }
{
    kind.results.len() <= 1
}

/// The first type that has more than one result.
pub(crate) fn first_type(m: &Module) -> Option<u32>
    requires { HasAtMost 0x7FFF_FFFF m.now }
    ensures { FindsNumber (λ k. Holds m.now (part.TypeAt k)) result }
{
    let types = m.types.as_slice();
    let at = types.iter().position(|kind| !has_few_results(kind))?;
    Some(at as u32)
}

/// The first own function whose type is unknown, counted among the own ones.
fn first_untyped(m: &Module) -> Option<usize>
    ensures { FindsNumber (λ k. IfSome (slice_get m.now.funcs k) (λ kind. kind < length m.now.types)) result }
{
    let types = m.types.len();
    let funcs = m.funcs.as_slice();
    funcs.iter().position(|kind| *kind as usize >= types)
}

/// The first own function whose type is unknown (section 3.4.1).
pub(crate) fn first_func_type(m: &Module, spaces: &Spaces) -> Option<u32>
    requires described { Describes spaces.now m.now }
    requires entries { HasAtMost 0x7FFF_FFFF m.now }
    ensures { FindsNumber (λ f. Holds m.now (part.FuncTypeAt f)) result }
{
    let own = first_untyped(m)?;
    Some(first_own_func(m, spaces) + own as u32)
}
