//! Element segments (section 3.4.5) and data segments (section 3.4.6).

ghost use Rattle.std.specs.Prelude.{◌↔◌, ◌<◌, All, IsTrue};
ghost use Rattle.wasm_types.specs.declared.place.Part.TheVariants as part;
ghost use Rattle.wasm_types.specs.Sizes.{HasAtMost};
ghost use Rattle.wasm_types.specs.Validity.{ElemHolds, Holds, SegmentHolds};
ghost use Rattle.body_check.specs.Numbered.{Describes};
ghost use Rattle.wasm_validate.specs.First.{FindsNumber};

use crate::globals::is_constant;
use body_check::Spaces;
use wasm_types::{DataSegment, Elem, Module, ValType};

/// Whether each number is that of one of so many functions.
fn are_known(funcs: &[u32], count: usize) -> bool
    ensures { IsTrue result ↔ All (λ f. f < count) funcs.now }
{
    funcs.iter().all(|func| (*func as usize) < count)
}

/// Whether an element segment is of a known table, has a constant offset, and names known functions.
fn elem_holds(m: &Module, spaces: &Spaces, elem: &Elem) -> bool
    requires { Describes spaces.now m.now }
    ensures { IsTrue result ↔ ElemHolds m.now elem.now }
{
    let globals = spaces.globals.as_slice();
    (elem.table as usize) < spaces.tables.len()
        && is_constant(globals, ValType::I32, elem.offset.as_slice())
        && are_known(elem.funcs.as_slice(), spaces.funcs.len())
}

/// Whether a data segment is of a known memory and has a constant offset.
fn segment_holds(m: &Module, spaces: &Spaces, segment: &DataSegment) -> bool
    requires { Describes spaces.now m.now }
    ensures { IsTrue result ↔ SegmentHolds m.now segment.now }
{
    let globals = spaces.globals.as_slice();
    (segment.memory as usize) < spaces.memories.len()
        && is_constant(globals, ValType::I32, segment.offset.as_slice())
}

/// The first element segment that isn't valid.
pub(crate) fn first_elem(m: &Module, spaces: &Spaces) -> Option<u32>
    requires entries { HasAtMost 0x7FFF_FFFF m.now }
    requires described { Describes spaces.now m.now }
    ensures { FindsNumber (λ k. Holds m.now (part.ElemAt k)) result }
{
    for (k, elem) in m.elems.as_slice().iter().enumerate() {
        if !elem_holds(m, spaces, elem) {
            return Some(k as u32);
        }
    }
    None
}

/// The first data segment that isn't valid.
pub(crate) fn first_segment(m: &Module, spaces: &Spaces) -> Option<u32>
    requires entries { HasAtMost 0x7FFF_FFFF m.now }
    requires described { Describes spaces.now m.now }
    ensures { FindsNumber (λ k. Holds m.now (part.DataAt k)) result }
{
    for (k, segment) in m.segments.as_slice().iter().enumerate() {
        if !segment_holds(m, spaces, segment) {
            return Some(k as u32);
        }
    }
    None
}
