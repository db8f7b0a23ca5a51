//! The first part with a float.

ghost use Rattle.std.specs.Prelude.{◌≡◌, ◌≤◌, ◌↔◌, All, IsTrue, length};
ghost use Rattle.wasm_types.specs.declared.place.Part.TheVariants as part;
ghost use Rattle.wasm_types.specs.Code.{done, onto, code_of};
ghost use Rattle.wasm_types.specs.Sizes.{HasAtMost};
ghost use Rattle.wasm_types.specs.Subset.{HasNoFloatIn, IsInteger, IsIntegerBody, IsIntegerCode, IsIntegerElem, IsIntegerFunc, IsIntegerGlobal, IsIntegerImport, IsIntegerKind, IsIntegerSegment};
ghost use Rattle.body_check.specs.Numbered.{Describes};
ghost use Rattle.wasm_validate.specs.First.{FindsNumber, FindsPart, float_order};

use crate::imports::{first_own_func, first_own_global};
use body_check::Spaces;
use wasm_types::{
    Body, DataSegment, Elem, FuncType, GlobalDef, ImportKind, Instr, LocalRun, Module, Part,
    ValType,
};

/// Whether a type is that of an integer.
fn is_integer(kind: ValType) -> bool
    ensures { IsTrue result ↔ IsInteger kind }
{
    match kind {
        ValType::I32 | ValType::I64 => true,
        ValType::F32 | ValType::F64 => false,
    }
}

/// Whether the type of a block, if it has one, is that of an integer.
fn is_integer_kind(kind: Option<ValType>) -> bool
    ensures { IsTrue result ↔ IsIntegerKind kind }
{
    match kind {
        Some(kind) => is_integer(kind),
        None => true,
    }
}

/// Whether all the types are those of integers.
fn has_integers(kinds: &[ValType]) -> bool
    ensures { IsTrue result ↔ All IsInteger kinds.now }
{
    kinds.iter().all(|kind| is_integer(*kind))
}

/// Whether an instruction, with what it holds, has no float.
#[cycle(integer)]
#[tactic(auto, using(crate::proofs::FloatLemmas::integer_steps))]
fn is_integer_instr(instr: &Instr) -> bool
    ensures { IsTrue result ↔ IsIntegerCode (onto instr.now done) }
{
    match instr {
        Instr::Block(kind, inner) => is_integer_kind(*kind) && is_integer_code(inner.as_slice()),
        Instr::Loop(kind, inner) => is_integer_kind(*kind) && is_integer_code(inner.as_slice()),
        Instr::If(kind, first, second) => {
            is_integer_kind(*kind)
                && is_integer_code(first.as_slice())
                && is_integer_code(second.as_slice())
        }
        Instr::Float(_) => false,
        _ => true,
    }
}

/// Whether a sequence has no float.
#[cycle(integer)]
#[tactic(auto, using(crate::proofs::FloatLemmas::integer_steps))]
fn is_integer_code(code: &[Instr]) -> bool
    ensures { IsTrue result ↔ IsIntegerCode (code_of code.now) }
{
    for instr in code {
        if !is_integer_instr(instr) {
            return false;
        }
    }
    true
}

fn is_integer_func(kind: &FuncType) -> bool
    ensures { IsTrue result ↔ IsIntegerFunc kind.now }
{
    has_integers(kind.params.as_slice()) && has_integers(kind.results.as_slice())
}

fn is_integer_import(kind: ImportKind) -> bool
    ensures { IsTrue result ↔ IsIntegerImport kind }
{
    match kind {
        ImportKind::Global(global) => is_integer(global.kind),
        _ => true,
    }
}

fn is_integer_global(global: &GlobalDef) -> bool
    ensures { IsTrue result ↔ IsIntegerGlobal global.now }
{
    is_integer(global.kind.kind) && is_integer_code(global.init.as_slice())
}

fn is_integer_elem(elem: &Elem) -> bool
    ensures { IsTrue result ↔ IsIntegerElem elem.now }
{
    is_integer_code(elem.offset.as_slice())
}

/// Whether each run of locals, also one of no locals, has an integer type.
fn has_integer_runs(runs: &[LocalRun]) -> bool
    ensures { IsTrue result ↔ All (λ (r : LocalRun). IsInteger r.kind) runs.now }
{
    runs.iter().all(|run| is_integer(run.kind))
}

fn is_integer_body(body: &Body) -> bool
    ensures { IsTrue result ↔ IsIntegerBody body.now }
{
    has_integer_runs(body.locals.as_slice()) && is_integer_code(body.code.as_slice())
}

fn is_integer_segment(segment: &DataSegment) -> bool
    ensures { IsTrue result ↔ IsIntegerSegment segment.now }
{
    is_integer_code(segment.offset.as_slice())
}

/// The number of the first type with a float.
fn float_type(m: &Module) -> Option<u32>
    requires { HasAtMost 0x7FFF_FFFF m.now }
    ensures { FindsNumber (λ k. HasNoFloatIn m.now (part.TypeAt k)) result }
{
    let at = m
        .types
        .as_slice()
        .iter()
        .position(|kind| !is_integer_func(kind))?;
    Some(at as u32)
}

/// The number of the first import with a float.
fn float_import(m: &Module) -> Option<u32>
    requires { HasAtMost 0x7FFF_FFFF m.now }
    ensures { FindsNumber (λ k. HasNoFloatIn m.now (part.ImportAt k)) result }
{
    let at = m
        .imports
        .as_slice()
        .iter()
        .position(|import| !is_integer_import(import.kind))?;
    Some(at as u32)
}

/// The number of the first global with a float, the imported ones counted too.
fn float_global(m: &Module, spaces: &Spaces) -> Option<u32>
    requires described { Describes spaces.now m.now }
    requires entries { HasAtMost 0x7FFF_FFFF m.now }
    ensures { FindsNumber (λ g. HasNoFloatIn m.now (part.GlobalAt g)) result }
{
    let at = m
        .globals
        .as_slice()
        .iter()
        .position(|global| !is_integer_global(global))?;
    Some(first_own_global(m, spaces) + at as u32)
}

/// The number of the first element segment with a float.
fn float_elem(m: &Module) -> Option<u32>
    requires { HasAtMost 0x7FFF_FFFF m.now }
    ensures { FindsNumber (λ k. HasNoFloatIn m.now (part.ElemAt k)) result }
{
    let at = m
        .elems
        .as_slice()
        .iter()
        .position(|elem| !is_integer_elem(elem))?;
    Some(at as u32)
}

/// The number of the first function with a float, the imported ones counted too.
fn float_func(m: &Module, spaces: &Spaces) -> Option<u32>
    requires described { Describes spaces.now m.now }
    requires entries { HasAtMost 0x7FFF_FFFF m.now }
    ensures { FindsNumber (λ f. HasNoFloatIn m.now (part.FuncAt f)) result }
{
    let at = m
        .bodies
        .as_slice()
        .iter()
        .position(|body| !is_integer_body(body))?;
    Some(first_own_func(m, spaces) + at as u32)
}

/// The number of the first data segment with a float.
fn float_segment(m: &Module) -> Option<u32>
    requires { HasAtMost 0x7FFF_FFFF m.now }
    ensures { FindsNumber (λ k. HasNoFloatIn m.now (part.DataAt k)) result }
{
    let at = m
        .segments
        .as_slice()
        .iter()
        .position(|segment| !is_integer_segment(segment))?;
    Some(at as u32)
}

/// The first part, in the order in which floats are looked for, that holds a float type or a float instruction: none where no part does.
pub(crate) fn first_float(m: &Module, spaces: &Spaces) -> Option<Part>
    requires described { Describes spaces.now m.now }
    requires entries { HasAtMost 0x7FFF_FFFF m.now }
    ensures { FindsPart (HasNoFloatIn m.now) float_order result }
{
    if let Some(at) = float_type(m) {
        return Some(Part::TypeAt(at));
    }
    if let Some(at) = float_import(m) {
        return Some(Part::ImportAt(at));
    }
    if let Some(at) = float_global(m, spaces) {
        return Some(Part::GlobalAt(at));
    }
    if let Some(at) = float_elem(m) {
        return Some(Part::ElemAt(at));
    }
    if let Some(at) = float_func(m, spaces) {
        return Some(Part::FuncAt(at));
    }
    if let Some(at) = float_segment(m) {
        return Some(Part::DataAt(at));
    }
    None
}
