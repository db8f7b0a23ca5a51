//! One walk through a body, which makes its cut.

ghost use Rattle.std.specs.Prelude.{◌≡◌, ◌+◌, ◌-◌, ◌<◌, ◌≤◌, ◌^◌, ◌++◌, ℕ, Bool, List, true, false, IfOk, length};
ghost use Rattle.wasm_types.specs.Code.{Code, code_of, count, done, list_of, onto};
ghost use Rattle.wasm_types.specs.Marked.{marks, unmarked, watched_at};
ghost use Rattle.wasm_types.specs.Nodes.{At};
ghost use Rattle.wasm_types.specs.Spaces.{func_types, import_count};
ghost use Rattle.stack_names.specs.Ends.{HasEnds};
ghost use Rattle.flow_domain.specs.KeptSets.{holds};
ghost use Rattle.flow_domain.specs.Sliced.{result_type, with_code};
ghost use Rattle.stack_repair.specs.Cuts.{IsCut};
ghost use Rattle.stack_repair.specs.Told.{Puts, SamePlace, put_in, put_onward, told, told_of};

use crate::plan::{Plan, goes_on, taken_kinds};
use crate::tally::{Tally, put_drops, put_zero};
use flow_domain::Kept;
use sqlite_items::Items;
use stack_names::{Names, Node};
use std::alloc::Global;
use wasm_types::{Body, FuncType, Instr, NoMemory, Pos, ValType, ValidModule};

/// How many positions an instruction has, with those of what it holds.
#[cycle(count)]
#[tactic(auto, using(crate::proofs::Steps::code_steps))]
fn count_in(instr: &Instr) -> u32
    requires { count (onto instr.now done) < 2 ^ 32 }
    ensures { result ≡ count (onto instr.now done) }
{
    match instr {
        Instr::Block(_, inner) => 1 + count_of(inner.as_slice()),
        Instr::Loop(_, inner) => 1 + count_of(inner.as_slice()),
        Instr::If(_, first, second) => {
            1 + count_of(first.as_slice()) + count_of(second.as_slice())
        }
        _ => 1,
    }
}

/// How many positions a sequence has.
#[cycle(count)]
#[tactic(auto, using(crate::proofs::Steps::count_steps))]
fn count_of(code: &[Instr]) -> u32
    requires { count (code_of code.now) < 2 ^ 32 }
    ensures { result ≡ count (code_of code.now) }
{
    let mut total = 0;
    for instr in code {
        total += count_in(instr);
    }
    total
}

/// Puts what stands for an unkept instruction in a sequence with this result. The answer is whether what stands after it is live.
fn leave_out(
    plan: &Plan,
    left: Option<ValType>,
    tally: &mut Tally,
    made: &mut Items<Instr>,
    instr: &Instr,
) -> Result<bool, NoMemory>
    requires room { tally.old.pos + count (onto instr.now done) < 2 ^ 32 }
    requires unkept { holds plan.now.kept.now (At tally.old.pos) ≡ false }
    ensures pos { IfOk result (λ _. tally.new.pos ≡ tally.old.pos + count (onto instr.now done)) }
    ensures puts { IfOk result (λ live. (rest : Code) → Puts made.old tally.old (put_in (told plan.now) left (onto instr.now rest) tally.old.pos) made.new tally.new (put_onward (told plan.now) left live rest tally.new.pos)) }
{
    let pos = Pos(tally.pos);
    tally.pos += count_in(instr);
    let count = plan.count_present(plan.dropped(instr, pos));
    put_drops(made, tally, count)?;
    put_zero(made, tally, plan.filled(instr, pos, left))?;
    Ok(goes_on(instr))
}

/// Puts a kept instruction, with the cut of what it holds. The answer is whether what stands after it is live.
#[cycle(cut)]
fn keep(
    alloc: Global,
    plan: &Plan,
    left: Option<ValType>,
    tally: &mut Tally,
    made: &mut Items<Instr>,
    instr: &Instr,
) -> Result<bool, NoMemory>
    requires room { tally.old.pos + count (onto instr.now done) < 2 ^ 32 }
    requires kept { holds plan.now.kept.now (At tally.old.pos) ≡ true }
    ensures pos { IfOk result (λ _. tally.new.pos ≡ tally.old.pos + count (onto instr.now done)) }
    ensures puts { IfOk result (λ live. (rest : Code) → Puts made.old tally.old (put_in (told plan.now) left (onto instr.now rest) tally.old.pos) made.new tally.new (put_onward (told plan.now) left live rest tally.new.pos)) }
{
    tally.put(plan.watched.0 == tally.pos);
    tally.pos += 1;
    match instr {
        Instr::Block(kind, inner) => {
            let inner = cut_code(alloc, plan, *kind, tally, inner.as_slice())?;
            made.push(Instr::Block(*kind, inner))?;
            Ok(true)
        }
        Instr::Loop(kind, inner) => {
            let inner = cut_code(alloc, plan, *kind, tally, inner.as_slice())?;
            made.push(Instr::Loop(*kind, inner))?;
            Ok(true)
        }
        Instr::If(kind, first, second) => {
            let first = cut_code(alloc, plan, *kind, tally, first.as_slice())?;
            let second = cut_code(alloc, plan, *kind, tally, second.as_slice())?;
            made.push(Instr::If(*kind, first, second))?;
            Ok(true)
        }
        _ => {
            made.push(instr.copy(alloc)?)?;
            Ok(goes_on(instr))
        }
    }
}

/// Puts what stands for an instruction, live or dead, in a sequence with this result. The answer is whether what stands after it is live.
#[cycle(cut)]
fn cut_next(
    alloc: Global,
    plan: &Plan,
    left: Option<ValType>,
    tally: &mut Tally,
    made: &mut Items<Instr>,
    live: bool,
    instr: &Instr,
) -> Result<bool, NoMemory>
    requires room { tally.old.pos + count (onto instr.now done) < 2 ^ 32 }
    ensures pos { IfOk result (λ _. tally.new.pos ≡ tally.old.pos + count (onto instr.now done)) }
    ensures puts { IfOk result (λ after. (rest : Code) → Puts made.old tally.old (put_onward (told plan.now) left live (onto instr.now rest) tally.old.pos) made.new tally.new (put_onward (told plan.now) left after rest tally.new.pos)) }
{
    if !live {
        tally.pos += count_in(instr);
        return Ok(false);
    }
    if plan.kept.has(Node::At(Pos(tally.pos))) {
        let after = keep(alloc, plan, left, tally, made, instr)?;
        return Ok(after);
    }
    leave_out(plan, left, tally, made, instr)
}

/// The cut of a sequence with this result.
#[cycle(cut)]
pub(crate) fn cut_code(
    alloc: Global,
    plan: &Plan,
    left: Option<ValType>,
    tally: &mut Tally,
    code: &[Instr],
) -> Result<Items<Instr>, NoMemory>
    requires { tally.old.pos + count (code_of code.now) < 2 ^ 32 }
    ensures pos { IfOk result (λ _. tally.new.pos ≡ tally.old.pos + count (code_of code.now)) }
    ensures code { IfOk result (λ made. made ≡ list_of (unmarked (put_in (told plan.now) left (code_of code.now) tally.old.pos))) }
    ensures place { IfOk result (λ _. (ms : List Bool) → SamePlace tally.old (marks (put_in (told plan.now) left (code_of code.now) tally.old.pos) ++ ms) tally.new ms) }
{
    let mut made = Items::new(alloc);
    let mut live = true;
    for instr in code {
        live = cut_next(alloc, plan, left, tally, &mut made, live, instr)?;
    }
    Ok(made)
}

/// A cut body, and where the watched instruction went.
#[derive(Drop)]
pub struct CutBody {
    pub body: Body,
    pub at: Pos,
}

/// The result of a function's type, if it has one.
fn result_of(kind: &FuncType) -> Option<ValType>
    ensures { result ≡ result_type kind.now }
{
    kind.results.get(0).copied()
}

/// The cut of a body of a function of this type.
fn cut_body(
    alloc: Global,
    names: &Names,
    kept: &Kept,
    at: Pos,
    left: Option<ValType>,
    body: &Body,
) -> Result<CutBody, NoMemory>
    requires { count (code_of body.now.code) < 2 ^ 32 - 1 }
    ensures code { IfOk result (λ cut. cut.body ≡ with_code (put_in (told_of names.now (holds kept.now) body.now at.0) left (code_of body.now.code) 0) body.now) }
    ensures place { IfOk result (λ cut. (k : ℕ) → k < 2 ^ 32 - 1 → watched_at (put_in (told_of names.now (holds kept.now) body.now at.0) left (code_of body.now.code) 0) ≡ k → cut.at.0 ≡ k) }
{
    let kinds = taken_kinds(alloc, kept, names, body.count())?;
    let plan = Plan {
        names,
        kept,
        kinds,
        watched: at,
    };
    let mut tally = Tally {
        pos: 0,
        count: 0,
        at: None,
    };
    let code = cut_code(alloc, &plan, left, &mut tally, body.code.as_slice())?;
    let locals = Items::from_slice(alloc, body.locals.as_slice())?;
    let at = Pos(tally.place());
    Ok(CutBody {
        body: Body { locals, code },
        at,
    })
}

/// The cut of the body of own function `func`, of whose values these are the names, by the kept nodes and the places that they need, and where position `at`
/// went. An error comes only where an allocation is refused.
pub fn cut(
    alloc: Global,
    m: &ValidModule,
    func: u32,
    names: &Names,
    kept: &Kept,
    at: Pos,
) -> Result<CutBody, NoMemory>
    requires imported { import_count m.now ≤ func }
    requires own { func < length (func_types m.now) }
    requires names { (w : ℕ → Bool) → HasEnds m.now func w names.now }
    ensures { IfOk result (λ cut. IsCut m.now func (holds kept.now) at.0 cut.body cut.at.0) }
{
    let module = m.module();
    let Some(kind) = module.func_type(func) else {
        unreachable!()
    };
    let Some(body) = module.body(func) else {
        unreachable!()
    };
    let made = cut_body(alloc, names, kept, at, result_of(kind), body)?;
    Ok(made)
}
