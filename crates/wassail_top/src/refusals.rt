//! The refusals that the ends of the layers below are: none where an allocation was refused.

ghost use Rattle.std.specs.Prelude.{◌≡◌, ℕ, Bool, None};
ghost use Rattle.stack_names.specs.Ends.{HasValues};
ghost use Rattle.wassail_top.specs.Queries.{why_no_summary, why_not_milled, why_not_seen};
ghost use Rattle.wassail_top.specs.Refusals.{why_no_code, why_not_admitted, why_not_decoded, why_not_sliced};

use module_mill::MOST_MILLED;
use report_text::{ModuleRefusal, QueryRefusal};
use slice_whole::SliceRefusal;
use stack_names::Names;
use wasm_decode::DecodeEnd;
use wasm_types::{Pos, ValidModule};
use wasm_validate::AdmitEnd;

/// Why bytes are refused that do not decode.
pub fn decode_refusal(end: DecodeEnd) -> Option<ModuleRefusal>
    ensures { result ≡ why_not_decoded end }
{
    match end {
        DecodeEnd::Header => Some(ModuleRefusal::NoHeader),
        DecodeEnd::Frame { k } => Some(ModuleRefusal::NoFrame { k }),
        DecodeEnd::Section { k, id } => Some(ModuleRefusal::DoesNotRead { k, id }),
        DecodeEnd::TooDeep { id, entry } => Some(ModuleRefusal::TooDeep { id, entry }),
        DecodeEnd::Counts => Some(ModuleRefusal::Counts),
        DecodeEnd::Memory => None,
    }
}

/// Why a module is refused that is not admitted.
pub fn admit_refusal(end: AdmitEnd) -> Option<ModuleRefusal>
    ensures { result ≡ why_not_admitted end }
{
    match end {
        AdmitEnd::Float { part } => Some(ModuleRefusal::Float { part }),
        AdmitEnd::Limit { which, at, count } => Some(ModuleRefusal::Limit { which, at, count }),
        AdmitEnd::Invalid { part } => Some(ModuleRefusal::Invalid { part }),
        AdmitEnd::Memory => None,
    }
}

/// Why nothing can be told of the code of function `func`: there is no such function, or it is imported.
pub fn code_refusal(m: &ValidModule, func: u32) -> Option<QueryRefusal>
    ensures { result ≡ why_no_code m.now func }
{
    let m = m.module();
    if func >= m.func_count() {
        return Some(QueryRefusal::NoFunction { func });
    }
    match m.body(func) {
        Some(_) => None,
        None => Some(QueryRefusal::Imported { func }),
    }
}

/// Why there is no summary of function `func`: there is no such function. None where all functions are asked for.
pub fn summary_refusal(m: &ValidModule, func: Option<u32>) -> Option<QueryRefusal>
    ensures { result ≡ why_no_summary m.now func }
{
    match func {
        Some(func) if func >= m.module().func_count() => Some(QueryRefusal::NoFunction { func }),
        _ => None,
    }
}

/// Why nothing is seen at position `at` of function `func`, which has code and these names: there is no such position, or it is dead.
pub fn sight_refusal(m: &ValidModule, func: u32, names: &Names, at: u32) -> Option<QueryRefusal>
    requires code { why_no_code m.now func ≡ None }
    requires names { (w : ℕ → Bool) → HasValues m.now func w names.now }
    ensures { result ≡ why_not_seen m.now func at }
{
    let Some(body) = m.module().body(func) else {
        unreachable!()
    };
    let count = body.count();
    if at >= count {
        return Some(QueryRefusal::NoInstruction { at, count });
    }
    if names.live(Pos(at)) {
        None
    } else {
        Some(QueryRefusal::Dead { at })
    }
}

/// Why there is no report of the large module of a number: it is out of its range.
pub fn mill_refusal(count: u32) -> Option<QueryRefusal>
    ensures { result ≡ why_not_milled count }
{
    if 0 < count && count <= MOST_MILLED {
        None
    } else {
        Some(QueryRefusal::BadArguments)
    }
}

/// Why a slice of function `func` at position `at` is refused.
pub fn slice_refusal(end: SliceRefusal, func: u32, at: u32) -> Option<QueryRefusal>
    ensures { result ≡ why_not_sliced func at end }
{
    match end {
        SliceRefusal::NoFunction => Some(QueryRefusal::NoFunction { func }),
        SliceRefusal::Imported { func } => Some(QueryRefusal::Imported { func }),
        SliceRefusal::NoInstruction { count } => Some(QueryRefusal::NoInstruction { at, count }),
        SliceRefusal::Dead { at } => Some(QueryRefusal::Dead { at: at.0 }),
        SliceRefusal::NameTaken => Some(QueryRefusal::NameTaken),
        SliceRefusal::Memory => None,
    }
}
