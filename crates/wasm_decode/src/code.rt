//! Code, and what stands with it (sections 5.5.9 and 5.5.12 to 5.5.14).

ghost use Rattle.std.specs.Prelude.{◌≡◌, refl, ◌<◌, ◌^◌, Decides};
ghost use Rattle.wasm_types.specs.Grammar.{SpellsInstrs};
ghost use Rattle.wasm_types.specs.Parts.{Counted};
ghost use Rattle.wasm_types.specs.Sections.{SpellsGlobal, SpellsElem, SpellsRun, SpellsBody, SpellsSegment, local_count};
ghost use Rattle.text_laws.proofs.Once.{once_counted};
ghost use Rattle.text_laws.proofs.SectionLemmas.{once_instrs, once_global, once_elem, once_run, once_body, once_segment, once_with};
ghost use Rattle.wasm_decode.specs.Depth.{IsShallow, IsShallowGlobal, IsShallowElem, IsShallowBody, IsShallowSegment};
ghost use Rattle.wasm_decode.specs.Entries.{Any, SpellsLocals};
ghost use Rattle.wasm_decode.specs.Shapes.{made_of_parts, locals_makes, body_makes};

use crate::list::{Bytes, Vector};
use crate::production::{Made, Of, Production};
use code_decode::{CodeRefusal, Stop, read_expr};
use sqlite_items::Items;
use std::alloc::Global;
use wasm_types::{Body, DataSegment, Elem, GlobalDef, GlobalType, Instr, LocalRun, ValType};

pub(crate) struct Expr;

impl Production for Expr {
    type Item = Items<Instr>;

    ghost spelled = { SpellsInstrs };

    ghost shallow = { IsShallow };

    ghost once = { once_instrs };

    fn read(alloc: Global, bytes: &[u8], at: usize) -> Result<(Option<Items<Instr>>, usize), Stop> {
        if at > bytes.len() {
            return Err(Stop::No);
        }
        match read_expr(alloc, bytes, at) {
            Ok((code, end)) => Ok((Some(code), end)),
            Err(CodeRefusal::TooDeep { end }) => Ok((None, end)),
            Err(CodeRefusal::Malformed) => Err(Stop::No),
            Err(CodeRefusal::Memory) => Err(Stop::Memory),
        }
    }
}

impl Made for GlobalDef {
    type Parts = (GlobalType, Expr);

    ghost spelled = { SpellsGlobal };

    ghost shallow = { IsShallowGlobal };

    ghost made_of = { λ v g. v ≡ (g.kind, g.init) };

    fn make(parts: (GlobalType, Items<Instr>)) -> Option<GlobalDef> {
        let (kind, init) = parts;
        Some(GlobalDef { kind, init })
    }

    ghost once = { once_global };

    ghost makes = { made_of_parts _ _ _ _ (λ v. (record { kind = v.0; init = v.1 }, refl)) (λ _ s. s.1) (λ _ t. (tt, t)) };
}

impl Made for Elem {
    type Parts = (u32, (Expr, Vector<u32>));

    ghost spelled = { SpellsElem };

    ghost shallow = { IsShallowElem };

    ghost made_of = { λ v e. v ≡ (e.table, (e.offset, e.funcs)) };

    fn make(parts: (u32, (Items<Instr>, Items<u32>))) -> Option<Elem> {
        let (table, (offset, funcs)) = parts;
        Some(Elem {
            table,
            offset,
            funcs,
        })
    }

    ghost once = { once_elem };

    ghost makes = { made_of_parts _ _ _ _ (λ v. (record { table = v.0; offset = v.1.0; funcs = v.1.1 }, refl)) (λ _ s. s.1.0) (λ _ t. (tt, (t, λ _ _ _. tt))) };
}

impl Made for LocalRun {
    type Parts = (u32, ValType);

    ghost spelled = { SpellsRun };

    ghost shallow = { Any };

    ghost made_of = { λ v r. v ≡ (r.count, r.kind) };

    fn make(parts: (u32, ValType)) -> Option<LocalRun> {
        let (count, kind) = parts;
        Some(LocalRun { count, kind })
    }

    ghost once = { once_run };

    ghost makes = { made_of_parts _ _ _ _ (λ v. (record { count = v.0; kind = v.1 }, refl)) (λ _ _. tt) (λ _ _. (tt, tt)) };
}

/// Whether the counts of the runs add up to less than 2^32.
fn is_countable(runs: &[LocalRun]) -> bool
    ensures { Decides result (local_count runs.now < 2 ^ 32) }
{
    let mut total = 0u64;
    for run in runs {
        total += u64::from(run.count);
        if total >= 1 << 32 {
            return false;
        }
    }
    true
}

/// The locals of a function.
impl Made for Items<LocalRun> {
    type Parts = Vector<Of<LocalRun>>;

    ghost spelled = { SpellsLocals };

    ghost shallow = { Any };

    ghost made_of = { λ v runs. (v ≡ runs) × (local_count runs < 2 ^ 32) };

    fn make(runs: Items<LocalRun>) -> Option<Items<LocalRun>> {
        if !is_countable(runs.as_slice()) {
            return None;
        }
        Some(runs)
    }

    ghost once = { once_with (Counted SpellsRun) (λ runs. local_count runs < 2 ^ 32) (once_counted SpellsRun once_run) };

    ghost makes = { locals_makes };
}

impl Made for Body {
    type Parts = (Of<Items<LocalRun>>, Expr);

    ghost spelled = { SpellsBody };

    ghost shallow = { IsShallowBody };

    ghost made_of = { λ v b. v ≡ (b.locals, b.code) };

    fn make(parts: (Items<LocalRun>, Items<Instr>)) -> Option<Body> {
        let (locals, code) = parts;
        Some(Body { locals, code })
    }

    ghost once = { once_body };

    ghost makes = { body_makes };
}

impl Made for DataSegment {
    type Parts = (u32, (Expr, Bytes));

    ghost spelled = { SpellsSegment };

    ghost shallow = { IsShallowSegment };

    ghost made_of = { λ v d. v ≡ (d.memory, (d.offset, d.bytes)) };

    fn make(parts: (u32, (Items<Instr>, Items<u8>))) -> Option<DataSegment> {
        let (memory, (offset, bytes)) = parts;
        Some(DataSegment {
            memory,
            offset,
            bytes,
        })
    }

    ghost once = { once_segment };

    ghost makes = { made_of_parts _ _ _ _ (λ v. (record { memory = v.0; offset = v.1.0; bytes = v.1.1 }, refl)) (λ _ s. s.1.0) (λ _ t. (tt, (t, tt))) };
}
