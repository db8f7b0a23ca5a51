//! The lines themselves. Each function fails only where an allocation is refused.

ghost use Rattle.std.specs.Prelude.{◌≡◌, IfOk};
ghost use Rattle.std.specs.String.{string_bytes};
ghost use Rattle.report_text.specs.Texts.{limit_texts, line_of, module_texts, part_text, query_texts, refusal_line, refusal_texts, slice_line, valid_line};

use crate::refusal::{ModuleRefusal, QueryRefusal, Refusal};
use std::alloc::{AllocError, Global};
use wasm_types::{LimitKind, MOST_BYTES, MOST_NESTING, NoMemory, Part};

/// The name of a part.
fn part_name(alloc: Global, part: Part) -> Result<String, AllocError>
    ensures { IfOk result (λ name. string_bytes name ≡ part_text part) }
{
    match part {
        Part::TypeAt(k) => format!(in alloc; "type {k}"),
        Part::ImportAt(k) => format!(in alloc; "import {k}"),
        Part::FuncTypeAt(k) => format!(in alloc; "function type {k}"),
        Part::TableAll => format!(in alloc; "table"),
        Part::MemoryAll => format!(in alloc; "memory"),
        Part::GlobalAt(k) => format!(in alloc; "global {k}"),
        Part::FuncAt(k) => format!(in alloc; "function {k}"),
        Part::ExportAt(k) => format!(in alloc; "export {k}"),
        Part::StartAt => format!(in alloc; "start"),
        Part::ElemAt(k) => format!(in alloc; "element {k}"),
        Part::DataAt(k) => format!(in alloc; "data {k}"),
    }
}

/// What is said of a number over its limit, to the end of the line.
fn limit_end(alloc: Global, which: LimitKind, at: u32, count: u64) -> Result<String, AllocError>
    ensures { IfOk result (λ text. string_bytes text ≡ line_of (limit_texts which at count)) }
{
    match which {
        LimitKind::Functions => format!(in alloc; "{count} functions\n"),
        LimitKind::Params => format!(in alloc; "type {at} has {count} parameters\n"),
        LimitKind::Globals => format!(in alloc; "{count} globals\n"),
        LimitKind::TableSize => format!(in alloc; "table of {count} entries\n"),
        LimitKind::Locals => format!(in alloc; "function {at} has {count} locals\n"),
        LimitKind::Positions => format!(in alloc; "function {at} has {count} positions\n"),
    }
}

/// Why a module is refused, to the end of the line.
fn module_end(alloc: Global, cause: ModuleRefusal) -> Result<String, AllocError>
    ensures { IfOk result (λ text. string_bytes text ≡ line_of (module_texts cause)) }
{
    match cause {
        ModuleRefusal::TooLong => format!(in alloc; "longer than {MOST_BYTES} bytes\n"),
        ModuleRefusal::NoHeader => format!(in alloc; "no module header\n"),
        ModuleRefusal::NoFrame { k } => format!(in alloc; "section {k} has no frame\n"),
        ModuleRefusal::DoesNotRead { k, id } => {
            format!(in alloc; "section {k} (id {id}) does not read\n")
        }
        ModuleRefusal::TooDeep { id, entry } => {
            format!(in alloc; "nesting over {MOST_NESTING} in section id {id} entry {entry}\n")
        }
        ModuleRefusal::Counts => {
            format!(in alloc; "function and code sections differ in count\n")
        }
        ModuleRefusal::Float { part } => {
            let name = part_name(alloc, part)?;
            format!(in alloc; "float type or instruction in {name}\n")
        }
        ModuleRefusal::Limit { which, at, count } => {
            let end = limit_end(alloc, which, at, count)?;
            format!(in alloc; "limit: {end}")
        }
        ModuleRefusal::Invalid { part } => {
            let name = part_name(alloc, part)?;
            format!(in alloc; "invalid {name}\n")
        }
    }
}

/// Why a query is refused, to the end of the line.
fn query_end(alloc: Global, cause: QueryRefusal) -> Result<String, AllocError>
    ensures { IfOk result (λ text. string_bytes text ≡ line_of (query_texts cause)) }
{
    match cause {
        QueryRefusal::NoFunction { func } => format!(in alloc; "no function {func}\n"),
        QueryRefusal::Imported { func } => format!(in alloc; "function {func} is imported\n"),
        QueryRefusal::NoInstruction { at, count } => {
            format!(in alloc; "no instruction {at}, function has {count}\n")
        }
        QueryRefusal::Dead { at } => format!(in alloc; "instruction {at} is dead\n"),
        QueryRefusal::NameTaken => format!(in alloc; "export name taken\n"),
        QueryRefusal::BadArguments => format!(in alloc; "arguments do not fit\n"),
        QueryRefusal::TooManyPages { min } => {
            format!(in alloc; "memory of {min} pages is over 1024\n")
        }
    }
}

/// What is refused and why, to the end of the line.
fn refusal_end(alloc: Global, refusal: Refusal) -> Result<String, AllocError>
    ensures { IfOk result (λ text. string_bytes text ≡ line_of (refusal_texts refusal)) }
{
    match refusal {
        Refusal::Words => format!(in alloc; "words refused\n"),
        Refusal::ReadFailed => format!(in alloc; "read failed\n"),
        Refusal::Module(cause) => {
            let end = module_end(alloc, cause)?;
            format!(in alloc; "module refused: {end}")
        }
        Refusal::Query(cause) => {
            let end = query_end(alloc, cause)?;
            format!(in alloc; "query refused: {end}")
        }
    }
}

/// The line of a refusal (docs/COMMANDS.md, "Refusals").
pub fn refusal_text(alloc: Global, refusal: Refusal) -> Result<Vec<u8>, NoMemory>
    ensures { IfOk result (λ text. text.items ≡ refusal_line refusal) }
{
    let end = refusal_end(alloc, refusal)?;
    let line = format!(in alloc; "wassail: {end}")?;
    Ok(line.into_bytes())
}

/// The line of a module that `check` takes.
pub fn valid_text(alloc: Global) -> Result<Vec<u8>, NoMemory>
    ensures { IfOk result (λ text. text.items ≡ valid_line) }
{
    let line = format!(in alloc; "valid\n")?;
    Ok(line.into_bytes())
}

/// The line that `slice` writes beside the sliced module.
pub fn slice_text(alloc: Global, func: u32, at: u32) -> Result<Vec<u8>, NoMemory>
    ensures { IfOk result (λ text. text.items ≡ slice_line func at) }
{
    let line = format!(in alloc; "function {func} instruction {at}\n")?;
    Ok(line.into_bytes())
}
