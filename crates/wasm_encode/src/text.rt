//! Bytes, types and sized bytes at the end of a text (WebAssembly Core Specification 1.0, sections 5.2 and 5.3).

ghost use Rattle.std.specs.Prelude.{◌≡◌, ◌<◌, ◌^◌, ◌++◌, ◌∷◌, [], length, OnOk};
ghost use Rattle.wasm_types.specs.Canon.{canon_sized, canon_limits, canon_table_type, canon_global_type};

use leb_codec::write_u32;
use opcode_table::{mutable_byte, type_byte};
use wasm_types::{GlobalType, Limits, NoMemory};

pub(crate) fn write_byte(out: &mut Vec<u8>, byte: u8) -> Result<(), NoMemory>
    ensures { OnOk result (out.new.items ≡ out.old.items ++ byte ∷ []) }
{
    match out.push(byte) {
        Ok(()) => Ok(()),
        Err(_) => Err(NoMemory),
    }
}

/// Writes how many bytes there are, and then these.
pub(crate) fn write_sized(out: &mut Vec<u8>, bytes: &[u8]) -> Result<(), NoMemory>
    requires { length bytes.now < 2 ^ 32 }
    ensures { OnOk result (out.new.items ≡ out.old.items ++ canon_sized bytes.now) }
{
    write_u32(out, bytes.len() as u32)?;
    out.extend_from_slice(bytes)?;
    Ok(())
}

pub(crate) fn write_limits(out: &mut Vec<u8>, limits: &Limits) -> Result<(), NoMemory>
    ensures { OnOk result (out.new.items ≡ out.old.items ++ canon_limits limits.now) }
{
    match limits.max {
        None => {
            write_byte(out, 0x00)?;
            write_u32(out, limits.min)
        }
        Some(max) => {
            write_byte(out, 0x01)?;
            write_u32(out, limits.min)?;
            write_u32(out, max)
        }
    }
}

pub(crate) fn write_table_type(out: &mut Vec<u8>, limits: &Limits) -> Result<(), NoMemory>
    ensures { OnOk result (out.new.items ≡ out.old.items ++ canon_table_type limits.now) }
{
    write_byte(out, 0x70)?;
    write_limits(out, limits)
}

pub(crate) fn write_global_type(out: &mut Vec<u8>, kind: &GlobalType) -> Result<(), NoMemory>
    ensures { OnOk result (out.new.items ≡ out.old.items ++ canon_global_type kind.now) }
{
    write_byte(out, type_byte(kind.kind))?;
    write_byte(out, mutable_byte(kind.mutable))
}
