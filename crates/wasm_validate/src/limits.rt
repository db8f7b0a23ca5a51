//! The limits of what is read (docs/ANALYSES.md, "Limits").

ghost use Rattle.std.specs.Prelude.{◌≡◌, ◌^◌, ◌<◌, find, map, nat_lt};
ghost use Rattle.wasm_types.specs.declared.place.LimitKind.TheVariants.{Functions, Params, Globals, TableSize, Locals, Positions};
ghost use Rattle.wasm_types.specs.Sections.{local_count};
ghost use Rattle.wasm_types.specs.Sizes.{HasAtMost};
ghost use Rattle.wasm_types.specs.Subset.{most_read};
ghost use Rattle.wasm_types.specs.WellFormed.{IsWellFormed};
ghost use Rattle.body_check.specs.Numbered.{Describes};
ghost use Rattle.wasm_validate.specs.Limits.{FindsKind, FindsOver, initial_size};

use crate::imports::first_own_func;
use body_check::Spaces;
use wasm_types::{
    LimitKind, Limits, LocalRun, MOST_ENTRIES, MOST_FUNCTIONS, MOST_GLOBALS, MOST_LOCALS,
    MOST_PARAMS, MOST_POSITIONS, Module,
};

/// A number over its limit: what it counts, the number of the type or of the function (0 where the limit is on neither), and the number itself.
#[derive(Clone, Copy)]
pub(crate) struct Over {
    pub(crate) which: LimitKind,
    pub(crate) at: u32,
    pub(crate) count: u64,
}

/// How many functions there are, if too many.
fn over_functions(m: &Module, spaces: &Spaces) -> Option<Over>
    requires { Describes spaces.now m.now }
    ensures { FindsKind m.now Functions result }
{
    let count = spaces.funcs.len();
    if count <= MOST_FUNCTIONS {
        return None;
    }
    Some(Over {
        which: LimitKind::Functions,
        at: 0,
        count: count as u64,
    })
}

/// The first type with too many parameters.
fn over_params(m: &Module) -> Option<Over>
    requires { HasAtMost 0x7FFF_FFFF m.now }
    ensures { FindsKind m.now Params result }
{
    for (k, kind) in m.types.as_slice().iter().enumerate() {
        let count = kind.params.len();
        if count > MOST_PARAMS {
            return Some(Over {
                which: LimitKind::Params,
                at: k as u32,
                count: count as u64,
            });
        }
    }
    None
}

/// How many globals there are, if too many.
fn over_globals(m: &Module, spaces: &Spaces) -> Option<Over>
    requires { Describes spaces.now m.now }
    ensures { FindsKind m.now Globals result }
{
    let count = spaces.globals.len();
    if count <= MOST_GLOBALS {
        return None;
    }
    Some(Over {
        which: LimitKind::Globals,
        at: 0,
        count: count as u64,
    })
}

/// How many entries the first table over the limit begins with.
fn large_table(tables: &[Limits]) -> Option<u32>
    ensures { result ≡ find (nat_lt (most_read TableSize)) (map initial_size tables.now) }
{
    tables
        .iter()
        .map(|limits| limits.min)
        .find(|min| *min > MOST_ENTRIES)
}

/// The first table that begins with too many entries.
fn over_tables(m: &Module, spaces: &Spaces) -> Option<Over>
    requires { Describes spaces.now m.now }
    ensures { FindsKind m.now TableSize result }
{
    large_table(spaces.tables.as_slice()).map(|count| Over {
        which: LimitKind::TableSize,
        at: 0,
        count: u64::from(count),
    })
}

/// How many locals the runs declare.
fn declared_locals(runs: &[LocalRun]) -> u32
    requires { local_count runs.now < 2 ^ 32 }
    ensures { result ≡ local_count runs.now }
{
    let mut count = 0;
    for run in runs {
        count += run.count;
    }
    count
}

/// The first function whose body declares too many locals.
#[tactic(auto, using(crate::proofs::LimitLemmas::few_imports))]
fn over_locals(m: &Module, spaces: &Spaces) -> Option<Over>
    requires described { Describes spaces.now m.now }
    requires well_formed { IsWellFormed m.now }
    requires entries { HasAtMost 0x7FFF_FFFF m.now }
    ensures { FindsKind m.now Locals result }
{
    let first = first_own_func(m, spaces);
    for (k, body) in m.bodies.as_slice().iter().enumerate() {
        let count = declared_locals(body.locals.as_slice());
        if count > MOST_LOCALS {
            return Some(Over {
                which: LimitKind::Locals,
                at: first + k as u32,
                count: u64::from(count),
            });
        }
    }
    None
}

/// The first function whose body has too many positions.
#[tactic(auto, using(crate::proofs::LimitLemmas::few_imports))]
fn over_positions(m: &Module, spaces: &Spaces) -> Option<Over>
    requires described { Describes spaces.now m.now }
    requires entries { HasAtMost 0x7FFF_FFFF m.now }
    ensures { FindsKind m.now Positions result }
{
    let first = first_own_func(m, spaces);
    for (k, body) in m.bodies.as_slice().iter().enumerate() {
        let count = body.count();
        if count > MOST_POSITIONS {
            return Some(Over {
                which: LimitKind::Positions,
                at: first + k as u32,
                count: u64::from(count),
            });
        }
    }
    None
}

/// The first number over its limit, in the order of `LimitKind`: none where the module is within the limits of what is read.
pub(crate) fn first_over(m: &Module, spaces: &Spaces) -> Option<Over>
    requires described { Describes spaces.now m.now }
    requires well_formed { IsWellFormed m.now }
    requires entries { HasAtMost 0x7FFF_FFFF m.now }
    ensures { FindsOver m.now result }
{
    over_functions(m, spaces)
        .or_else(|| over_params(m))
        .or_else(|| over_globals(m, spaces))
        .or_else(|| over_tables(m, spaces))
        .or_else(|| over_locals(m, spaces))
        .or_else(|| over_positions(m, spaces))
}
