//! Element segments.

ghost use Rattle.std.specs.Prelude.{◌≡◌, ℕ, ◌+◌, ◌^◌, ◌<◌, ◌≤◌, length, replicate, All, IfOk, None};
ghost use Rattle.typed_runs.specs.Start.{begins, named, table_after};
ghost use Rattle.wasm_types.specs.Hosts.{is_within};
ghost use Rattle.inst_make.specs.Starts.{ElemWithin, FindsFirst};

use crate::constants::{lies_within, offset_of};
use std::alloc::{AllocError, Global};
use wasm_types::{Elem, Value};

/// Whether a segment lies within a table of so many entries.
fn is_elem_within(elem: &Elem, globals: &[Value], entries: u32) -> bool
    ensures { result ≡ is_within (begins globals.now elem.now.offset) (length elem.now.funcs) entries }
{
    lies_within(
        offset_of(globals, elem.offset.as_slice()),
        elem.funcs.len(),
        u64::from(entries),
    )
}

/// The number of the first segment that doesn't lie within a table of so many entries.
pub(crate) fn first_elem_out(elems: &[Elem], globals: &[Value], entries: u32) -> Option<u32>
    requires { length elems.now < 2 ^ 32 }
    ensures { FindsFirst (ElemWithin globals.now entries) elems.now result }
{
    for (k, elem) in elems.iter().enumerate() {
        if !is_elem_within(elem, globals, entries) {
            return Some(k as u32);
        }
    }
    None
}

/// A table of so many empty entries.
pub(crate) fn empty_table(alloc: Global, entries: u32) -> Result<Vec<Option<u32>>, AllocError>
    ensures { IfOk result (λ table. table.items ≡ replicate entries None) }
{
    vec![in alloc; None; entries as usize]
}

/// Puts functions into a table from an entry on.
fn write_entries(entries: &mut [Option<u32>], at: usize, funcs: &[u32])
    requires { at + length funcs.now ≤ length entries.old }
    ensures { entries.new ≡ named at funcs.now entries.old }
{
    for (k, func) in funcs.iter().enumerate() {
        entries[at + k] = Some(*func);
    }
}

/// Puts the functions of each segment into a table, in their order.
pub(crate) fn write_elems(entries: &mut [Option<u32>], elems: &[Elem], globals: &[Value])
    requires { All (ElemWithin globals.now (length entries.old)) elems.now }
    ensures { entries.new ≡ table_after globals.now elems.now entries.old }
{
    for elem in elems {
        let at = offset_of(globals, elem.offset.as_slice()) as usize;
        write_entries(entries, at, elem.funcs.as_slice());
    }
}
