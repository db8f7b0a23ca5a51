//! The rows of imported functions.

ghost use Rattle.std.specs.Prelude.{◌≡◌, ℕ, ◌^◌, ◌<◌, ◌↔◌, ◌⊎◌, Bool, IfOk, IsSome, false, length, slice_index_or};
ghost use Rattle.wasm_types.specs.declared.place.Loc.{Loc};
ghost use Rattle.wasm_types.specs.declared.place.Loc.TheVariants as loc;
ghost use Rattle.worklist.specs.Search.{IsMarked};
ghost use Rattle.flow_domain.specs.Rows.{Output as Asked, Final};
ghost use Rattle.flow_domain.specs.Summaries.{HasInput, IsKnown, IsShape, asked, column_number, place_of, row_number};
ghost use Rattle.summary_fix.specs.Imports as spec;

use flow_domain::{Input, Output, Summary};
use std::alloc::Global;
use wasm_types::NoMemory;

/// Adds an input to the row of an output, if it stands there.
fn add_if(rows: &mut Summary, out: Output, inp: Input, does: bool)
    requires known { IsKnown rows.old.globals (asked out) }
    requires inp { IsSome (column_number rows.old.globals rows.old.params (place_of inp)) }
    ensures shape { IsShape rows.old.globals rows.old.params rows.new }
    ensures added { (o : Asked) (x : Loc) →
        HasInput rows.new o x ↔ (HasInput rows.old o x ⊎ ((o ≡ asked out) × spec.IsIf does (place_of inp) x)) }
{
    if does {
        rows.add(out, inp);
    }
}

/// Adds each parameter to the row of an output.
fn add_params(rows: &mut Summary, out: Output)
    requires { IsKnown rows.old.globals (asked out) }
    ensures shape { IsShape rows.old.globals rows.old.params rows.new }
    ensures added { (o : Asked) (x : Loc) →
        HasInput rows.new o x ↔ (HasInput rows.old o x ⊎ ((o ≡ asked out) × spec.IsParam rows.old.params x)) }
{
    for param in 0..rows.params() {
        rows.add(out, Input::Param(param));
    }
}

/// Adds each global that is marked to the row of an output.
fn add_globals(rows: &mut Summary, out: Output, seen: &[bool])
    requires known { IsKnown rows.old.globals (asked out) }
    requires length { length seen.now ≡ rows.old.globals }
    ensures shape { IsShape rows.old.globals rows.old.params rows.new }
    ensures added { (o : Asked) (x : Loc) →
        HasInput rows.new o x ↔ (HasInput rows.old o x ⊎ ((o ≡ asked out) × spec.IsSeenGlobal seen.now x)) }
{
    for global in 0..rows.globals() {
        let does = seen[global as usize];
        add_if(rows, out, Input::Global(global), does);
    }
}

/// Adds the memory and its size to the row of an output, if the memory is seen, and the host.
fn add_memory(rows: &mut Summary, out: Output, memory: bool)
    requires { IsKnown rows.old.globals (asked out) }
    ensures shape { IsShape rows.old.globals rows.old.params rows.new }
    ensures added { (o : Asked) (x : Loc) →
        HasInput rows.new o x ↔ (HasInput rows.old o x ⊎ ((o ≡ asked out) × spec.IsSeenOther memory x)) }
{
    add_if(rows, out, Input::Mem, memory);
    add_if(rows, out, Input::Size, memory);
    rows.add(out, Input::Host);
}

/// Adds all that an imported function uses to the row of an output.
fn add_used(rows: &mut Summary, out: Output, seen: &[bool], memory: bool)
    requires known { IsKnown rows.old.globals (asked out) }
    requires length { length seen.now ≡ rows.old.globals }
    ensures shape { IsShape rows.old.globals rows.old.params rows.new }
    ensures added { (o : Asked) (x : Loc) →
        HasInput rows.new o x ↔ (HasInput rows.old o x ⊎ ((o ≡ asked out) × spec.Uses seen.now memory rows.old.params x)) }
{
    add_params(rows, out);
    add_globals(rows, out, seen);
    add_memory(rows, out, memory);
}

/// Adds to the row of an output all that an imported function uses, if the function changes it, and otherwise the one input that it is.
fn add_row(rows: &mut Summary, out: Output, changed: bool, same: Input, seen: &[bool], memory: bool)
    requires known { IsKnown rows.old.globals (asked out) }
    requires same { IsSome (column_number rows.old.globals rows.old.params (place_of same)) }
    requires length { length seen.now ≡ rows.old.globals }
    ensures shape { IsShape rows.old.globals rows.old.params rows.new }
    ensures added { (o : Asked) (x : Loc) →
        HasInput rows.new o x ↔ (HasInput rows.old o x ⊎ ((o ≡ asked out) × spec.RowBy seen.now memory rows.old.params changed (place_of same) x)) }
{
    if changed {
        add_used(rows, out, seen, memory);
    } else {
        rows.add(out, same);
    }
}

/// Adds to the row of each global at the end what it depends on.
fn add_final_globals(rows: &mut Summary, seen: &[bool], memory: bool)
    requires { length seen.now ≡ rows.old.globals }
    ensures shape { IsShape rows.old.globals rows.old.params rows.new }
    ensures added { (o : Asked) (x : Loc) →
        HasInput rows.new o x ↔ (HasInput rows.old o x ⊎ spec.GlobalRow seen.now memory rows.old.params rows.old.globals o x) }
{
    for global in 0..rows.globals() {
        let changed = seen[global as usize];
        add_row(
            rows,
            Output::Global(global),
            changed,
            Input::Global(global),
            seen,
            memory,
        );
    }
}

/// The rows of an imported function with so many parameters, which sees the marked globals, and the memory or not. It fails only where memory is refused.
pub(crate) fn import_rows(
    alloc: Global,
    params: u32,
    seen: &[bool],
    memory: bool,
) -> Result<Summary, NoMemory>
    requires { length seen.now < 2 ^ 32 }
    ensures shape { IfOk result (λ s. IsShape (length seen.now) params s) }
    ensures rows { IfOk result (λ s. (o : Asked) (x : Loc) → IsKnown (length seen.now) o → HasInput s o x ↔ spec.ImportRow seen.now memory params o x) }
{
    let mut rows = Summary::none(alloc, seen.len() as u32, params)?;
    add_row(&mut rows, Output::Ret, true, Input::Host, seen, memory);
    add_row(&mut rows, Output::Done, true, Input::Host, seen, memory);
    add_row(&mut rows, Output::Host, true, Input::Host, seen, memory);
    add_row(&mut rows, Output::Mem, memory, Input::Mem, seen, memory);
    add_row(&mut rows, Output::Size, false, Input::Size, seen, memory);
    add_final_globals(&mut rows, seen, memory);
    Ok(rows)
}
