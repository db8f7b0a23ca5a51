//! Copies, canonical spellings and the check of one body.

ghost use Rattle.std.specs.Prelude.{◌≡◌, ◌↔◌, ◌<◌, ◌≤◌, ◌^◌, IfOk, IsTrue, length};
ghost use Rattle.wasm_types.specs.Canon.{canon};
ghost use Rattle.wasm_types.specs.Sizes.{HasAtMost};
ghost use Rattle.wasm_types.specs.Subset.{NestsAtMost, most_nesting};
ghost use Rattle.wasm_types.specs.WellFormed.{IsWellFormed};
ghost use Rattle.body_check.specs.Numbered.{FewResults};

use body_check::check_body;
use std::test::Fail;
use wasm_decode::decode;
use wasm_encode::encode;
use wasm_types::Module;

/// `(module (func (param i32 i32) (result i32) local.get 0 local.get 1 i32.add))`
const SUM: &[u8] =
    b"\0asm\x01\0\0\0\x01\x07\x01\x60\x02\x7F\x7F\x01\x7F\x03\x02\x01\x00\x0A\x09\x01\x07\x00\x20\x00\x20\x01\x6A\x0B";

/// One function `() -> i32`: `i32.const 1; br 0; i64.const 0`.
const INVALID: &[u8] =
    b"\0asm\x01\0\0\0\x01\x05\x01\x60\x00\x01\x7F\x03\x02\x01\x00\x0A\x0A\x01\x08\x00\x41\x01\x0C\x00\x42\x00\x0B";

/// A module with one entry in each section, and names.
const WHOLE: &[u8] =
    b"\x00asm\x01\x00\x00\x00\x01\x06\x01\x60\x01\x7F\x01\x7F\x02\x0A\x01\x03env\x01g\x03\x7E\x00\x03\x02\x01\x00\x04\x06\x01\x70\x01\x00\xAC\x02\x05\x03\x01\x00\x01\x06\x06\x01\x7F\x01\x41\x7F\x0B\x07\x07\x01\x03run\x00\x00\x08\x01\x00\x09\x08\x01\x00\x41\x00\x0B\x02\x00\x00\x0A\x16\x01\x14\x01\x02\x7E\x20\x00\x04\x7F\x41\x80\x01\x05\x41\xC0\x00\x0B\x04\x40\x01\x0B\x0B\x0B\x08\x01\x00\x41\x08\x0B\x02hi\x00\x07\x04name\x00\x01";

// The module that the bytes spell.
pub(crate) fn decoded(rt: &HostRuntime, bytes: &[u8]) -> Result<Module, Fail>
    requires { length bytes.now ≤ 8388608 }
    ensures well_formed { IfOk result (λ m. IsWellFormed m) }
    ensures short { IfOk result (λ m. length (canon m) ≤ 8388608) }
    ensures entries { IfOk result (λ m. HasAtMost 0x7FFF_FFFF m) }
    ensures nesting { IfOk result (λ m. NestsAtMost most_nesting m) }
{
    match decode(rt.alloc(), bytes) {
        Ok(module) => Ok(module),
        Err(_) => Err("no module")?,
    }
}

fn has_few_results(m: &Module) -> bool
    ensures { IsTrue result ↔ FewResults m.now }
{
    m.types
        .as_slice()
        .iter()
        .all(|kind| kind.results.len() <= 1)
}

// The canonical spelling of a module.
fn spelled(rt: &HostRuntime, m: &Module) -> Result<Vec<u8>, Fail>
    requires well_formed { IsWellFormed m.now }
    requires short { length (canon m.now) ≤ 8388608 }
{
    match encode(rt.alloc(), m) {
        Ok(text) => Ok(text),
        Err(_) => Err("no memory")?,
    }
}

// The canonical spelling of a copy of a module.
fn copied_text(rt: &HostRuntime, m: &Module) -> Result<Vec<u8>, Fail>
    requires well_formed { IsWellFormed m.now }
    requires short { length (canon m.now) ≤ 8388608 }
{
    let Ok(copy) = m.copy(rt.alloc()) else {
        return Err("no memory")?;
    };
    spelled(rt, &copy)
}

// How many instructions a copy of the first body of a module has.
fn copied_count(rt: &HostRuntime, m: &Module) -> Result<usize, Fail> {
    let Some(body) = m.body(0) else {
        return Err("no body")?;
    };
    let Ok(copy) = body.copy(rt.alloc()) else {
        return Err("no memory")?;
    };
    Ok(copy.code.len())
}

// The canonical spelling of a copy of a module, and how many instructions a copy of its first body has.
fn copies(rt: &HostRuntime, m: &Module) -> Result<(Vec<u8>, usize), Fail>
    requires well_formed { IsWellFormed m.now }
    requires short { length (canon m.now) ≤ 8388608 }
{
    let count = copied_count(rt, m)?;
    let text = copied_text(rt, m)?;
    Ok((text, count))
}

// The same of the module that the bytes spell.
fn copies_of(rt: &HostRuntime, bytes: &[u8]) -> Result<(Vec<u8>, usize), Fail>
    requires { length bytes.now ≤ 8388608 }
{
    let module = decoded(rt, bytes)?;
    copies(rt, &module)
}

#[test]
fn copies_a_module_and_a_body(rt: HostRuntime) -> Result<(), Fail> {
    let (text, count) = copies_of(&rt, WHOLE)?;
    assert_eq!(rt; text.as_slice(), WHOLE);
    assert_eq!(rt; count, 3);
    Ok(())
}

// Whether the body of the first function of a module is valid.
fn first_is_valid(rt: &HostRuntime, m: &Module) -> Result<bool, Fail>
    requires well_formed { IsWellFormed m.now }
    requires entries { HasAtMost 0x7FFF_FFFF m.now }
{
    if !has_few_results(m) {
        return Err("a type of two results")?;
    }
    let Ok(valid) = check_body(rt.alloc(), m, 0) else {
        return Err("no memory")?;
    };
    Ok(valid)
}

// The same of the module that the bytes spell.
fn first_body_is_valid(rt: &HostRuntime, bytes: &[u8]) -> Result<bool, Fail>
    requires { length bytes.now ≤ 8388608 }
{
    let module = decoded(rt, bytes)?;
    first_is_valid(rt, &module)
}

#[test]
fn checks_one_body(rt: HostRuntime) -> Result<(), Fail> {
    assert!(rt; first_body_is_valid(&rt, SUM)?);
    assert!(rt; !first_body_is_valid(&rt, INVALID)?);
    Ok(())
}
