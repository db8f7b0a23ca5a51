//! The table of a body in which calls do nothing.

ghost use Rattle.std.specs.Prelude.{◌≡◌, ℕ, ◌&&◌, ◌++◌, ◌∷◌, [], Bool, Some, IfOk, IsSome, true};
ghost use Rattle.wasm_types.specs.declared.module.Body.{Body};
ghost use Rattle.wasm_types.specs.Actions.{Callees};
ghost use Rattle.wasm_types.specs.Code.{code_of, done, onto};
ghost use Rattle.wasm_types.specs.Sites.{body_sites};
ghost use Rattle.wasm_types.specs.Spaces.{body_of};
ghost use Rattle.flow_domain.specs.LocRows as spec;
ghost use Rattle.flow_domain.specs.LocTables.{IsPlainTable};
ghost use Rattle.flow_domain.specs.Sliced.{watched_code};

use crate::loc_table::{LocTable, LocUse};
use std::alloc::Global;
use wasm_types::{Instr, Loc, NoMemory, ValidModule};

/// What positions use, in their order: a dead one has none.
type Rows = Vec<Option<Vec<LocUse>>>;

fn reading(loc: Loc) -> LocUse
    ensures { result ≡ spec.reading loc }
{
    LocUse {
        loc,
        reads: true,
        checks: false,
        writes: false,
    }
}

fn checking(loc: Loc) -> LocUse
    ensures { result ≡ spec.checking loc }
{
    LocUse {
        loc,
        reads: false,
        checks: true,
        writes: false,
    }
}

fn writing(loc: Loc) -> LocUse
    ensures { result ≡ spec.writing loc }
{
    LocUse {
        loc,
        reads: false,
        checks: false,
        writes: true,
    }
}

/// A write that keeps a part of what the location was.
fn changing(loc: Loc) -> LocUse
    ensures { result ≡ spec.changing loc }
{
    LocUse {
        loc,
        reads: true,
        checks: false,
        writes: true,
    }
}

fn list(alloc: Global, uses: &[LocUse]) -> Result<Vec<LocUse>, NoMemory>
    ensures { IfOk result (λ list. list.items ≡ uses.now) }
{
    let list = uses.to_vec(alloc).map_err(|_| NoMemory)?;
    Ok(list)
}

/// What an instruction uses where it calls nothing.
fn plain_uses(alloc: Global, instr: &Instr) -> Result<Vec<LocUse>, NoMemory>
    ensures { IfOk result (λ uses. uses.items ≡ spec.uses_of instr.now) }
{
    match instr {
        Instr::LocalGet(local) => list(alloc, &[reading(Loc::Local(*local))]),
        Instr::LocalSet(local) => list(alloc, &[writing(Loc::Local(*local))]),
        Instr::LocalTee(local) => list(alloc, &[writing(Loc::Local(*local))]),
        Instr::GlobalGet(global) => list(alloc, &[reading(Loc::Global(*global))]),
        Instr::GlobalSet(global) => list(alloc, &[writing(Loc::Global(*global))]),
        Instr::Load(_, _) => list(alloc, &[reading(Loc::Mem), checking(Loc::Size)]),
        Instr::Store(_, _) => list(alloc, &[changing(Loc::Mem), checking(Loc::Size)]),
        Instr::MemorySize => list(alloc, &[reading(Loc::Size)]),
        Instr::MemoryGrow => list(alloc, &[changing(Loc::Size)]),
        Instr::MemoryCopy => list(alloc, &[changing(Loc::Mem), checking(Loc::Size)]),
        Instr::MemoryFill => list(alloc, &[changing(Loc::Mem), checking(Loc::Size)]),
        _ => Ok(Vec::new(alloc)),
    }
}

/// Whether what follows an instruction in its sequence can be live.
fn goes_on(instr: &Instr) -> bool
    ensures { result ≡ spec.goes_on instr.now }
{
    !matches!(
        instr,
        Instr::Unreachable | Instr::Br(_) | Instr::BrTable(_, _) | Instr::Return
    )
}

/// The row of one position.
fn add_row(alloc: Global, rows: &mut Rows, instr: &Instr, live: bool) -> Result<(), NoMemory>
    ensures { IfOk result (λ _. spec.shown rows.new.items ≡ spec.shown rows.old.items ++ spec.if_live live (spec.uses_of instr.now) ∷ []) }
{
    let row = if live {
        Some(plain_uses(alloc, instr)?)
    } else {
        None
    };
    rows.push(row).map_err(|_| NoMemory)?;
    Ok(())
}

/// The rows of an instruction and of what it holds.
#[cycle(rows)]
#[tactic(auto, using(wasm_types::proofs::CodeLemmas::code_steps))]
fn add_instr(alloc: Global, rows: &mut Rows, instr: &Instr, live: bool) -> Result<(), NoMemory>
    ensures { IfOk result (λ _. spec.shown rows.new.items ≡ spec.shown rows.old.items ++ spec.rows_of live (onto instr.now done)) }
{
    add_row(alloc, rows, instr, live)?;
    match instr {
        Instr::Block(_, inner) => {
            add_code(alloc, rows, inner.as_slice(), live)?;
        }
        Instr::Loop(_, inner) => {
            add_code(alloc, rows, inner.as_slice(), live)?;
        }
        Instr::If(_, first, second) => {
            add_code(alloc, rows, first.as_slice(), live)?;
            add_code(alloc, rows, second.as_slice(), live)?;
        }
        _ => {}
    }
    Ok(())
}

/// The rows of a sequence. It calls itself for each block that it goes into.
#[cycle(rows)]
fn add_code(alloc: Global, rows: &mut Rows, code: &[Instr], live: bool) -> Result<(), NoMemory>
    ensures { IfOk result (λ _. spec.shown rows.new.items ≡ spec.shown rows.old.items ++ spec.rows_of live (code_of code.now)) }
{
    let mut still_live = live;
    for instr in code {
        add_instr(alloc, rows, instr, still_live)?;
        still_live = goes_on(instr) && still_live;
    }
    Ok(())
}

/// The table of one body, in which each call does nothing. It fails only where memory is refused.
pub fn plain_locs(alloc: Global, m: &ValidModule, func: u32) -> Result<LocTable, NoMemory>
    requires { IsSome (body_of m.now func) }
    // It is the table of the body, whatever the functions called are, and whatever is watched.
    ensures { IfOk result (λ table. (b : Body) → body_of m.now func ≡ Some b → (cs : Callees) (results : ℕ) (w : ℕ → Bool) →
        IsPlainTable cs (body_sites cs results (watched_code w b)) table) }
{
    let Some(body) = m.module().body(func) else {
        unreachable!()
    };
    let mut rows = Vec::new(alloc);
    add_code(alloc, &mut rows, body.code.as_slice(), true)?;
    Ok(LocTable { rows })
}
