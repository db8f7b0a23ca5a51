//! Sections (WebAssembly Core Specification 1.0, section 5.5).

ghost use Rattle.std.specs.Prelude.{◌≡◌, ◌<◌, ◌^◌, ◌++◌, ◌∷◌, ℕ, List, length, All, OnOk, codes};
ghost use Rattle.wasm_types.specs.declared.module.Body.{Body};
ghost use Rattle.wasm_types.specs.Canon.{canon_each, canon_counted, canon_table_type, canon_body, canon_entry, canon_section, canon_list, canon_start, canon_names};
ghost use Rattle.wasm_types.specs.WellFormed.{ProperBody};

use crate::code::write_instrs;
use crate::items::{Canonical, write_counted};
use crate::text::{write_byte, write_sized, write_table_type};
use leb_codec::write_u32;
use sqlite_items::Items;
use wasm_types::{Body, Limits, NoMemory};

/// A section with these contents.
fn write_section(out: &mut Vec<u8>, id: u8, contents: &[u8]) -> Result<(), NoMemory>
    requires { length contents.now < 2 ^ 32 }
    ensures { OnOk result (out.new.items ≡ out.old.items ++ canon_section id contents.now) }
{
    write_byte(out, id)?;
    write_sized(out, contents)
}

/// The section of a list, and nothing for an empty one. The contents are gathered in `room`, whose bytes are lost.
pub(crate) fn write_list<T: Canonical>(
    out: &mut Vec<u8>,
    room: &mut Vec<u8>,
    id: u8,
    items: &[T],
) -> Result<(), NoMemory>
    requires proper { All T.proper items.now }
    requires few { length items.now < 2 ^ 32 }
    requires short { length (canon_list id T.text items.now) < 2 ^ 32 }
    ensures { OnOk result (out.new.items ≡ out.old.items ++ canon_list id T.text items.now) }
{
    if items.is_empty() {
        return Ok(());
    }
    room.clear();
    write_counted(room, items)?;
    write_section(out, id, room.as_slice())
}

fn write_each_table(out: &mut Vec<u8>, tables: &[Limits]) -> Result<(), NoMemory>
    ensures { OnOk result (out.new.items ≡ out.old.items ++ canon_each canon_table_type tables.now) }
{
    for limits in tables {
        write_table_type(out, limits)?;
    }
    Ok(())
}

/// The table section, as `write_list` writes the others.
pub(crate) fn write_tables(
    out: &mut Vec<u8>,
    room: &mut Vec<u8>,
    tables: &[Limits],
) -> Result<(), NoMemory>
    requires few { length tables.now < 2 ^ 32 }
    requires short { length (canon_list 4 canon_table_type tables.now) < 2 ^ 32 }
    ensures { OnOk result (out.new.items ≡ out.old.items ++ canon_list 4 canon_table_type tables.now) }
{
    if tables.is_empty() {
        return Ok(());
    }
    room.clear();
    write_u32(room, tables.len() as u32)?;
    write_each_table(room, tables)?;
    write_section(out, 4, room.as_slice())
}

/// A body, without its size.
fn write_body(out: &mut Vec<u8>, body: &Body) -> Result<(), NoMemory>
    requires proper { ProperBody body.now }
    requires short { length (canon_body body.now) < 2 ^ 32 }
    ensures { OnOk result (out.new.items ≡ out.old.items ++ canon_body body.now) }
{
    write_counted(out, body.locals.as_slice())?;
    write_instrs(out, body.code.as_slice())
}

fn write_each_entry(out: &mut Vec<u8>, room: &mut Vec<u8>, bodies: &[Body]) -> Result<(), NoMemory>
    requires proper { All ProperBody bodies.now }
    requires short { length (canon_each canon_entry bodies.now) < 2 ^ 32 }
    ensures { OnOk result (out.new.items ≡ out.old.items ++ canon_each canon_entry bodies.now) }
{
    for body in bodies {
        room.clear();
        write_body(room, body)?;
        write_sized(out, room.as_slice())?;
    }
    Ok(())
}

/// The code section, as `write_list` writes the others. Each body is gathered in `entry`, whose bytes are lost.
pub(crate) fn write_bodies(
    out: &mut Vec<u8>,
    room: &mut Vec<u8>,
    entry: &mut Vec<u8>,
    bodies: &[Body],
) -> Result<(), NoMemory>
    requires proper { All ProperBody bodies.now }
    requires few { length bodies.now < 2 ^ 32 }
    requires short { length (canon_list 10 canon_entry bodies.now) < 2 ^ 32 }
    ensures { OnOk result (out.new.items ≡ out.old.items ++ canon_list 10 canon_entry bodies.now) }
{
    if bodies.is_empty() {
        return Ok(());
    }
    room.clear();
    write_u32(room, bodies.len() as u32)?;
    write_each_entry(room, entry, bodies)?;
    write_section(out, 10, room.as_slice())
}

pub(crate) fn write_start(
    out: &mut Vec<u8>,
    room: &mut Vec<u8>,
    start: Option<u32>,
) -> Result<(), NoMemory>
    requires { length (canon_start start) < 2 ^ 32 }
    ensures { OnOk result (out.new.items ≡ out.old.items ++ canon_start start) }
{
    match start {
        None => Ok(()),
        Some(func) => {
            room.clear();
            write_u32(room, func)?;
            write_section(out, 8, room.as_slice())
        }
    }
}

/// The custom section `name`.
pub(crate) fn write_names(
    out: &mut Vec<u8>,
    room: &mut Vec<u8>,
    names: &Option<Items<u8>>,
) -> Result<(), NoMemory>
    requires { length (canon_names names.now) < 2 ^ 32 }
    ensures { OnOk result (out.new.items ≡ out.old.items ++ canon_names names.now) }
{
    match names {
        None => Ok(()),
        Some(payload) => {
            room.clear();
            write_sized(room, b"name")?;
            room.extend_from_slice(payload.as_slice())?;
            write_section(out, 0, room.as_slice())
        }
    }
}
