//! The table in which only imported functions have rows.

ghost use Rattle.std.specs.Prelude.{◌≡◌, ◌++◌, ◌∷◌, [], ℕ, ◌^◌, ◌<◌, ◌≤◌, ◌↔◌, IfOk, IfSome, IsTrue, Some, length, slice_get};
ghost use Rattle.std.specs.Option.{option_copied};
ghost use Rattle.wasm_types.specs.declared.module.FuncType.{FuncType};
ghost use Rattle.wasm_types.specs.declared.place.Loc.{Loc};
ghost use Rattle.wasm_types.specs.declared.place.Loc.TheVariants as loc;
ghost use Rattle.wasm_types.specs.Hosts.{HostFunc, host_of};
ghost use Rattle.wasm_types.specs.Spaces.{func_types, globals_of, import_count, type_of_func};
ghost use Rattle.worklist.specs.Search.{IsMarked};
ghost use Rattle.flow_domain.specs.Reach.{MayWrite};
ghost use Rattle.flow_domain.specs.Rows.{Output as Asked, ImportRows};
ghost use Rattle.flow_domain.specs.Summaries.{HasInput, IsKnown, IsShape, TableRows};
ghost use Rattle.call_graph.specs.Graph.{IsCallGraph};
ghost use Rattle.summary_fix.specs.Settled.{IsSound};

use crate::imports::import_rows;
use body_check::Spaces;
use call_graph::CallGraph;
use flow_domain::{Summary, SummaryTable};
use std::alloc::Global;
use wasm_types::{FuncType, Loc, NoMemory, ValidModule};

pub(crate) fn push_mark(marks: &mut Vec<bool>, mark: bool) -> Result<(), NoMemory>
    ensures { IfOk result (λ _. marks.new.items ≡ marks.old.items ++ mark ∷ []) }
{
    marks.push(mark).map_err(|_| NoMemory)?;
    Ok(())
}

/// For each global whether a function writes it.
fn written_globals(
    alloc: Global,
    m: &ValidModule,
    graph: &CallGraph,
    func: u32,
    globals: u32,
) -> Result<Vec<bool>, NoMemory>
    requires { IsCallGraph m.now graph.now }
    ensures length { IfOk result (λ marks. length marks.items ≡ globals) }
    ensures exact { IfOk result (λ marks. (k : ℕ) → k < globals → (IsMarked marks.items k ↔ MayWrite m.now func (loc.Global k))) }
{
    let mut marks = Vec::new(alloc);
    for global in 0..globals {
        push_mark(&mut marks, graph.writes(func, Loc::Global(global)))?;
    }
    Ok(marks)
}

/// The type of a number, and how many parameters it has.
fn type_of(m: &ValidModule, kind: u32) -> Option<&FuncType>
    ensures kind { option_copied result ≡ slice_get m.now.types kind }
    ensures params { IfSome result (λ t. length t.now.params < 2 ^ 32) }
{
    m.module().types.get(kind as usize)
}

/// The rows with which a function begins: those of an imported one, none of an own one.
fn first_rows(
    alloc: Global,
    m: &ValidModule,
    graph: &CallGraph,
    imported: bool,
    globals: u32,
    func: u32,
    kind: u32,
) -> Result<Summary, NoMemory>
    requires graph { IsCallGraph m.now graph.now }
    requires imported { IsTrue imported ↔ (func < import_count m.now) }
    requires globals { globals ≡ length (globals_of m.now) }
    requires kind { slice_get (func_types m.now) func ≡ Some kind }
    ensures globals { IfOk result (λ s. s.globals ≡ globals) }
    ensures shape { IfOk result (λ s. (t : FuncType) → type_of_func m.now func ≡ Some t → IsShape globals (length t.params) s) }
    ensures imports { IfOk result (λ s. func < import_count m.now → (o : Asked) (x : Loc) → IsKnown globals o → HasInput s o x ↔ ImportRows m.now func o x) }
    ensures own { IfOk result (λ s. import_count m.now ≤ func → (o : Asked) (x : Loc) → HasInput s o x → ⊥) }
{
    let Some(kind) = type_of(m, kind) else {
        let rows = Summary::none(alloc, globals, 0)?;
        return Ok(rows);
    };
    let params = kind.params.len() as u32;
    if !imported {
        let rows = Summary::none(alloc, globals, params)?;
        return Ok(rows);
    }
    let seen = written_globals(alloc, m, graph, func, globals)?;
    let rows = import_rows(alloc, params, &seen, graph.writes(func, Loc::Mem))?;
    Ok(rows)
}

/// The table of a module in which imported functions have their rows, and own ones none. It fails only where memory is refused.
pub(crate) fn start_table(
    alloc: Global,
    m: &ValidModule,
    graph: &CallGraph,
) -> Result<SummaryTable, NoMemory>
    requires { IsCallGraph m.now graph.now }
    ensures sound { IfOk result (λ t. IsSound m.now t) }
    ensures own { IfOk result (λ t. (f : ℕ) (o : Asked) (x : Loc) → import_count m.now ≤ f → TableRows t f o x → ⊥) }
{
    let spaces = Spaces::new(alloc, m.module())?;
    let globals = spaces.globals.len() as u32;
    let imports = spaces.funcs.len() - m.module().funcs.len();
    let mut table = SummaryTable::new(alloc);
    for (func, kind) in spaces.funcs.iter().enumerate() {
        let rows = first_rows(alloc, m, graph, func < imports, globals, func as u32, *kind)?;
        table.push(rows)?;
    }
    Ok(table)
}
