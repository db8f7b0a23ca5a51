//! The contents of a section, by its id (sections 5.5.3 to 5.5.14).

ghost use Rattle.std.specs.Prelude.{◌≡◌, ◌≤◌, MatchOption, codes, bytes_eq, ℕ};
ghost use Rattle.wasm_types.specs.Numbers.{SpellsU32};
ghost use Rattle.wasm_decode.specs.Contents.{Keeps, ReadsCustom, ReadsSection};

use crate::list::{Framed, read_entries};
use crate::production::{Of, Production};
use crate::sections::read_name;
use crate::types::TableType;
use code_decode::Stop;
use leb_codec::read_u32;
use sqlite_items::Items;
use std::alloc::Global;
use wasm_types::{Body, DataSegment, Elem, Export, FuncType, GlobalDef, Import, Limits, Module};

/// Keeps the entries of the vector that the whole text spells; the number of the first in which code nests too deep.
fn keep<E: Production>(
    alloc: Global,
    text: &[u8],
    list: &mut Items<E::Item>,
) -> Result<Option<u32>, Stop>
    ensures { Keeps E.spelled E.shallow text.now list.new result }
{
    let (entries, end) = read_entries::<E>(alloc, text, 0)?;
    if end < text.len() {
        return Err(Stop::No);
    }
    *list = entries.items;
    Ok(entries.deep)
}

fn is_names(name: &[u8]) -> bool
    ensures { result ≡ bytes_eq name.now (codes "name") }
{
    name == b"name".as_slice()
}

/// Keeps the payload of a custom section that is named `name`.
fn read_custom(alloc: Global, text: &[u8], names: &mut Option<Items<u8>>) -> Result<(), Stop>
    ensures { ReadsCustom text.now names.old names.new result }
{
    let Some((start, end)) = read_name(text, 0) else {
        return Err(Stop::No);
    };
    if is_names(&text[start..end]) {
        *names = Some(Items::from_slice(alloc, &text[end..])?);
    }
    Ok(())
}

/// The number that the whole text spells.
fn read_start(text: &[u8]) -> Option<u32>
    ensures { MatchOption result ((n : ℕ) → SpellsU32 text.now n → ⊥) (λ n. SpellsU32 text.now n) }
{
    let (func, after) = read_u32(text, 0)?;
    if after < text.len() {
        return None;
    }
    Some(func)
}

/// Puts what the section has into the module; the number of its first entry in which code nests too deep.
pub(crate) fn read_section(
    alloc: Global,
    text: &[u8],
    id: u8,
    into: &mut Module,
) -> Result<Option<u32>, Stop>
    requires { id ≤ 11 }
    ensures { ReadsSection id text.now into.old into.new result }
{
    match id {
        0 => {
            read_custom(alloc, text, &mut into.names)?;
            Ok(None)
        }
        1 => keep::<Of<FuncType>>(alloc, text, &mut into.types),
        2 => keep::<Of<Import>>(alloc, text, &mut into.imports),
        3 => keep::<u32>(alloc, text, &mut into.funcs),
        4 => keep::<TableType>(alloc, text, &mut into.tables),
        5 => keep::<Limits>(alloc, text, &mut into.mems),
        6 => keep::<Of<GlobalDef>>(alloc, text, &mut into.globals),
        7 => keep::<Of<Export>>(alloc, text, &mut into.exports),
        8 => {
            let Some(func) = read_start(text) else {
                return Err(Stop::No);
            };
            into.start = Some(func);
            Ok(None)
        }
        9 => keep::<Of<Elem>>(alloc, text, &mut into.elems),
        10 => keep::<Framed<Of<Body>>>(alloc, text, &mut into.bodies),
        _ => keep::<Of<DataSegment>>(alloc, text, &mut into.segments),
    }
}
