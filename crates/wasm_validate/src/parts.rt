//! The first part of a module that isn't valid (docs/VALIDITY.md, "The order of refusals").

ghost use Rattle.std.specs.Prelude.{◌<◌, IfOk, MatchOption};
ghost use Rattle.wasm_types.specs.declared.place.Part.{Part};
ghost use Rattle.wasm_types.specs.Sizes.{HasAtMost};
ghost use Rattle.wasm_types.specs.Validity.{Holds};
ghost use Rattle.wasm_types.specs.WellFormed.{IsWellFormed};
ghost use Rattle.body_check.specs.Numbered.{Describes};
ghost use Rattle.wasm_validate.specs.First.{FindsPart, IsFirstWithout, valid_order};

use crate::exports::first_export;
use crate::externals::first_import;
use crate::funcs::{first_func, start_holds};
use crate::globals::first_global;
use crate::segments::{first_elem, first_segment};
use crate::storage::{memories_hold, tables_hold};
use crate::types::{first_func_type, first_type};
use body_check::Spaces;
use std::alloc::Global;
use wasm_types::{Module, NoMemory, Part};

/// The first of the types, the imports and the types of own functions that isn't valid.
fn first_declaration(m: &Module, spaces: &Spaces) -> Option<Part>
    requires described { Describes spaces.now m.now }
    requires entries { HasAtMost 0x7FFF_FFFF m.now }
    ensures { MatchOption result ((p : Part) → valid_order p < 3 → Holds m.now p) (IsFirstWithout (Holds m.now) valid_order) }
{
    if let Some(k) = first_type(m) {
        return Some(Part::TypeAt(k));
    }
    if let Some(k) = first_import(m) {
        return Some(Part::ImportAt(k));
    }
    match first_func_type(m, spaces) {
        Some(func) => Some(Part::FuncTypeAt(func)),
        None => None,
    }
}

/// The first of the tables, the memories and the own globals that isn't valid, where all before them are.
fn first_storage(m: &Module, spaces: &Spaces) -> Option<Part>
    requires described { Describes spaces.now m.now }
    requires entries { HasAtMost 0x7FFF_FFFF m.now }
    requires earlier { (p : Part) → valid_order p < 3 → Holds m.now p }
    ensures { MatchOption result ((p : Part) → valid_order p < 6 → Holds m.now p) (IsFirstWithout (Holds m.now) valid_order) }
{
    if !tables_hold(m, spaces) {
        return Some(Part::TableAll);
    }
    if !memories_hold(m, spaces) {
        return Some(Part::MemoryAll);
    }
    match first_global(m, spaces) {
        Some(global) => Some(Part::GlobalAt(global)),
        None => None,
    }
}

/// The first of the own functions and the exports that isn't valid, where all before them are. An error comes only where memory is refused.
fn first_body_or_export(
    alloc: Global,
    m: &Module,
    spaces: &Spaces,
) -> Result<Option<Part>, NoMemory>
    requires described { Describes spaces.now m.now }
    requires well_formed { IsWellFormed m.now }
    requires entries { HasAtMost 0x7FFF_FFFF m.now }
    requires earlier { (p : Part) → valid_order p < 6 → Holds m.now p }
    ensures { IfOk result (λ found. MatchOption found ((p : Part) → valid_order p < 8 → Holds m.now p) (IsFirstWithout (Holds m.now) valid_order)) }
{
    if let Some(func) = first_func(alloc, m, spaces)? {
        return Ok(Some(Part::FuncAt(func)));
    }
    match first_export(alloc, m, spaces)? {
        Some(k) => Ok(Some(Part::ExportAt(k))),
        None => Ok(None),
    }
}

/// The first of the start function, the element segments and the data segments that isn't valid, where all before them are.
fn first_start_or_segment(m: &Module, spaces: &Spaces) -> Option<Part>
    requires described { Describes spaces.now m.now }
    requires entries { HasAtMost 0x7FFF_FFFF m.now }
    requires earlier { (p : Part) → valid_order p < 8 → Holds m.now p }
    ensures { FindsPart (Holds m.now) valid_order result }
{
    if !start_holds(m) {
        return Some(Part::StartAt);
    }
    if let Some(k) = first_elem(m, spaces) {
        return Some(Part::ElemAt(k));
    }
    match first_segment(m, spaces) {
        Some(k) => Some(Part::DataAt(k)),
        None => None,
    }
}

/// The first part, in the order in which validity is tested, that isn't valid: none where all are. An error comes only where memory is refused.
pub(crate) fn first_invalid(
    alloc: Global,
    m: &Module,
    spaces: &Spaces,
) -> Result<Option<Part>, NoMemory>
    requires described { Describes spaces.now m.now }
    requires well_formed { IsWellFormed m.now }
    requires entries { HasAtMost 0x7FFF_FFFF m.now }
    ensures { IfOk result (λ found. FindsPart (Holds m.now) valid_order found) }
{
    if let Some(part) = first_declaration(m, spaces) {
        return Ok(Some(part));
    }
    if let Some(part) = first_storage(m, spaces) {
        return Ok(Some(part));
    }
    if let Some(part) = first_body_or_export(alloc, m, spaces)? {
        return Ok(Some(part));
    }
    Ok(first_start_or_segment(m, spaces))
}
