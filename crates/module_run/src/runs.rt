//! Runs.

ghost use Rattle.std.specs.Prelude.{◌≡◌, ℕ, ◌+◌, ◌<◌, ◌^◌, IfOk, List, Option, Some, map};
ghost use Rattle.wasm_types.specs.declared.module.FuncType.{FuncType};
ghost use Rattle.wasm_types.specs.declared.module.Pos.{Pos};
ghost use Rattle.wasm_types.specs.declared.run.Reply.{Reply};
ghost use Rattle.wasm_types.specs.Spaces.{global_import, imported, type_of_func};
ghost use Rattle.wasm_types.specs.declared.module.GlobalType.{GlobalType};
ghost use Rattle.wasm_meaning.specs.Fits.{HaveTypes};
ghost use Rattle.wasm_meaning.specs.Invoke.{zero_value};
ghost use Rattle.inst_make.specs.Starts.{Instantiates};
ghost use Rattle.flat_code.specs.Flat.{Flattens};
ghost use Rattle.ref_interp.specs.Invokes.{Serves};
ghost use Rattle.module_run.specs.Runs.{Runs, after_turns, first_values, most_run_pages};
ghost use Rattle.module_run.specs.Steps.{HasBegun, IsStart, TurnsWithin, begun_as, not_begun, unused};

use flat_code::{Program, compile};
use inst_make::{InstEnd, Instance, instantiate};
use ref_interp::{Call, invoke};
use run_store::Script;
use sqlite_items::Items;
use std::alloc::{AllocError, Global};
use thiserror::Error;
use wasm_types::{
    Ended, Event, Import, ImportKind, NoMemory, Pos, Reply, ValType, ValidModule, Value,
};

/// The greatest number of pages of a run.
const MOST_RUN_PAGES: u32 = 1024;

/// How a run ended.
#[derive(Drop)]
pub enum RunEnd {
    /// Element segment `k` doesn't fit the table, and no earlier one.
    ElemOut { k: u32 },
    /// Data segment `k` doesn't fit the memory, and no earlier one.
    DataOut { k: u32 },
    /// The start function trapped, or was out of turns.
    InStart { ended: Ended },
    /// The function ended so, after so many turns of its own and of the start function; and what was seen at the watched position.
    Ran { ended: Ended, trace: Vec<Event> },
}

/// Why there is no run.
#[derive(Clone, Copy, Debug, PartialEq, Eq, Error)]
pub enum RunRefusal {
    /// The memory begins with more pages than a run may have.
    #[error("the memory begins with {min} pages")]
    TooManyPages { min: u32 },
    /// An allocation was refused.
    #[error("an allocation was refused")]
    Memory,
}

/// What the start function leaves: it returned, where there is one, after so many turns; or it didn't.
#[derive(Clone, Copy, Drop)]
enum Begun {
    Prepared { turns: u32 },
    Stopped { ended: Ended },
}

/// The zero of an integer type.
fn zero_of(kind: ValType) -> Value
    ensures { result ≡ zero_value kind }
{
    match kind {
        ValType::I64 => Value::I64(0),
        _ => Value::I32(0),
    }
}

/// The values of the imported globals, each zero.
fn zero_globals(alloc: Global, imports: &[Import]) -> Result<Vec<Value>, AllocError>
    ensures { IfOk result (λ values. values.items ≡ map (λ (g : GlobalType). zero_value g.kind) (imported global_import imports.now)) }
{
    let mut values = Vec::new(alloc);
    for import in imports {
        if let ImportKind::Global(kind) = import.kind {
            values.push(zero_of(kind.kind))?;
        }
    }
    Ok(values)
}

/// The instance that a run begins with, before its start function runs.
fn begin(alloc: Global, m: &ValidModule, replies: Items<Reply>) -> Result<Instance, InstEnd>
    ensures { Instantiates m.now (first_values m.now) most_run_pages (unused replies) result }
{
    let globals = zero_globals(alloc, m.module().imports.as_slice())?;
    instantiate(
        alloc,
        m,
        globals.as_slice(),
        MOST_RUN_PAGES,
        Script::new(replies),
    )
}

/// What comes of a module that isn't instantiated.
fn without_instance(end: InstEnd) -> Result<RunEnd, RunRefusal>
    ensures { result ≡ not_begun end }
{
    match end {
        InstEnd::TooManyPages { min } => Err(RunRefusal::TooManyPages { min }),
        InstEnd::ElemOut { k } => Ok(RunEnd::ElemOut { k }),
        InstEnd::DataOut { k } => Ok(RunEnd::DataOut { k }),
        InstEnd::Memory => Err(RunRefusal::Memory),
    }
}

/// What an end of the start function leaves.
fn begun_by(ended: Ended) -> Begun
    ensures { result ≡ begun_as ended }
{
    match ended {
        Ended::Returned { turns, .. } => Begun::Prepared { turns },
        Ended::Trapped { reason, turns } => Begun::Stopped {
            ended: Ended::Trapped { reason, turns },
        },
        Ended::OutOfTurns => Begun::Stopped {
            ended: Ended::OutOfTurns,
        },
    }
}

/// The module's program, in which that position of the function is watched, where one is.
fn program_of(
    alloc: Global,
    m: &ValidModule,
    func: u32,
    watch: Option<Pos>,
) -> Result<Program, NoMemory>
    ensures { IfOk result (λ p. Serves m.now p func watch) }
{
    match watch {
        Some(pos) => compile(alloc, m, Some((func, pos))),
        None => compile(alloc, m, None),
    }
}

/// Runs the start function, where there is one, within a budget of turns.
fn start(
    alloc: Global,
    m: &ValidModule,
    program: &Program,
    inst: &mut Instance,
    budget: u32,
) -> Result<Begun, NoMemory>
    requires code { (watched : Option (ℕ × Pos)) × Flattens m.now watched program.now }
    requires start { (replies : List Reply) × IsStart m.now replies inst.old }
    ensures { IfOk result (λ b. (replies : List Reply) → IsStart m.now replies inst.old → HasBegun m.now replies budget inst.new b) }
{
    let Some(func) = m.module().start else {
        return Ok(Begun::Prepared { turns: 0 });
    };
    let call = Call {
        func,
        args: &[],
        budget,
        watch: None,
    };
    match invoke(alloc, m, program, inst, &call) {
        Ok(run) => Ok(begun_by(run.ended)),
        Err(_) => Err(NoMemory),
    }
}

/// An end after so many turns more, where it took at most `most` itself.
fn after(before: u32, ended: Ended, most: u32) -> Ended
    requires sum { before + most < 2 ^ 32 }
    requires turns { TurnsWithin most ended }
    ensures { result ≡ after_turns before ended }
{
    match ended {
        Ended::Returned { value, turns } => Ended::Returned {
            value,
            turns: before + turns,
        },
        Ended::Trapped { reason, turns } => Ended::Trapped {
            reason,
            turns: before + turns,
        },
        Ended::OutOfTurns => Ended::OutOfTurns,
    }
}

/// Runs a module from its start: its segments are written, its start function runs, and then a function, called with arguments of its types, with the imported
/// globals zero, at most 1,024 pages and the host's replies (docs/MEANING.md, "Runs"). The start function and the function share the budget of turns. What
/// happens at a position of the function is shown, where one is watched.
///
/// `TooManyPages` comes exactly where the memory begins with more pages than a run may have.
pub fn run(
    alloc: Global,
    m: &ValidModule,
    func: u32,
    watch: Option<Pos>,
    args: &[Value],
    replies: Items<Reply>,
    budget: u32,
) -> Result<RunEnd, RunRefusal>
    requires kinds { (F : FuncType) × (type_of_func m.now func ≡ Some F) × HaveTypes args.now F.params }
    ensures { Runs m.now func watch args.now replies budget result }
{
    let mut inst = match begin(alloc, m, replies) {
        Ok(inst) => inst,
        Err(end) => return without_instance(end),
    };
    // The start function and the function run by the same program.
    let Ok(program) = program_of(alloc, m, func, watch) else {
        return Err(RunRefusal::Memory);
    };
    let turns = match start(alloc, m, &program, &mut inst, budget) {
        Ok(Begun::Prepared { turns }) => turns,
        Ok(Begun::Stopped { ended }) => return Ok(RunEnd::InStart { ended }),
        Err(NoMemory) => return Err(RunRefusal::Memory),
    };
    let left = budget - turns;
    let call = Call {
        func,
        args,
        budget: left,
        watch,
    };
    match invoke(alloc, m, &program, &mut inst, &call) {
        Ok(run) => Ok(RunEnd::Ran {
            ended: after(turns, run.ended, left),
            trace: run.trace,
        }),
        Err(_) => Err(RunRefusal::Memory),
    }
}
