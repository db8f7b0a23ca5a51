//! What a call through the table finds there.

ghost use Rattle.std.specs.Prelude.{◌≡◌, if◌then◌else◌, slice_get};
ghost use Rattle.wasm_types.specs.declared.run.Reason.TheVariants.{WrongType};
ghost use Rattle.wasm_types.specs.Actions.{callees};
ghost use Rattle.wasm_types.specs.Spaces.{func_types, type_of_func};
ghost use Rattle.wasm_meaning.specs.Effects.{Fails, Finds, found_at, found_by, same_type, same_types};
ghost use Rattle.ref_interp.specs.Config.{found_as};

use wasm_types::{FuncType, Module, Reason, ValType};

/// Whether two lists of types are equal.
fn are_same(left: &[ValType], right: &[ValType]) -> bool
    ensures { result ≡ same_types left.now right.now }
{
    if left.len() != right.len() {
        return false;
    }
    for i in 0..left.len() {
        if left[i] != right[i] {
            return false;
        }
    }
    true
}

/// Whether two types of functions are equal.
#[inline(never)]
fn is_same(left: &FuncType, right: &FuncType) -> bool
    ensures { result ≡ same_type left.now right.now }
{
    are_same(left.params.as_slice(), right.params.as_slice())
        && are_same(left.results.as_slice(), right.results.as_slice())
}

/// Whether a function has the type of a number: it does where its type has that number, and also where the two are equal.
#[inline(always)]
fn has_type(m: &Module, types: &[u32], func: u32, kind: u32) -> bool
    requires { types.now ≡ func_types m.now }
    ensures { found_by func (type_of_func m.now func) (slice_get m.now.types kind) ≡ (if result then Finds func else Fails WrongType) }
{
    let (Some(own), Some(wanted)) = (types.get(func as usize), m.types.get(kind as usize)) else {
        return false;
    };
    if *own == kind {
        return true;
    }
    match m.types.get(*own as usize) {
        Some(found) => is_same(found, wanted),
        None => false,
    }
}

/// The function that an entry of the table holds, where its type is that of a number.
#[inline(always)]
pub(crate) fn find(
    m: &Module,
    types: &[u32],
    entries: &[Option<u32>],
    kind: u32,
    index: u64,
) -> Result<u32, Reason>
    requires { types.now ≡ func_types m.now }
    ensures { found_as result ≡ found_at (callees m.now) kind (slice_get entries.now index) }
{
    let entry = match entries.get(index as usize) {
        Some(entry) => *entry,
        None => return Err(Reason::NoEntry),
    };
    let Some(func) = entry else {
        return Err(Reason::EmptyEntry);
    };
    if has_type(m, types, func, kind) {
        Ok(func)
    } else {
        Err(Reason::WrongType)
    }
}
