//! Instructions (WebAssembly Core Specification 1.0, section 5.4).

ghost use Rattle.std.specs.Prelude.{◌≡◌, ◌<◌, ◌^◌, ◌%◌, ◌/◌, ◌++◌, ◌∷◌, [], length, OnOk};
ghost use Rattle.wasm_types.specs.declared.module.ValType.{ValType};
ghost use Rattle.wasm_types.specs.Numbers.{shortest_u32};
ghost use Rattle.wasm_types.specs.Types.{kind_byte};
ghost use Rattle.wasm_types.specs.Code.{done, onto, code_of};
ghost use Rattle.wasm_types.specs.Plain.{immediates, memories_of};
ghost use Rattle.wasm_types.specs.Canon.{else_part, canon_counted, canon_raw_32, canon_immediates, canon_plain, canon_code, canon_instrs};
ghost use Rattle.wasm_types.specs.WellFormed.{ProperImmediates, ProperCode, ProperInstrs};

use crate::items::write_counted;
use crate::text::write_byte;
use leb_codec::{write_i32_bits, write_i64_bits, write_u32};
use opcode_table::{MEMORY_COPY, MEMORY_FILL, block_byte, opcode_of};
use wasm_types::{FloatInstr, Instr, MemArg, NoMemory, ValType};

fn write_address(out: &mut Vec<u8>, place: &MemArg) -> Result<(), NoMemory>
    ensures { OnOk result (out.new.items ≡ out.old.items ++ (shortest_u32 place.now.align ++ shortest_u32 place.now.offset)) }
{
    write_u32(out, place.align)?;
    write_u32(out, place.offset)
}

/// The bits of a float, the least byte first.
fn write_raw_32(out: &mut Vec<u8>, v: u32) -> Result<(), NoMemory>
    ensures { OnOk result (out.new.items ≡ out.old.items ++ canon_raw_32 v) }
{
    write_byte(out, (v % 256) as u8)?;
    write_byte(out, (v / 256 % 256) as u8)?;
    write_byte(out, (v / 65536 % 256) as u8)?;
    write_byte(out, (v / 16777216) as u8)
}

fn write_raw_64(out: &mut Vec<u8>, v: u64) -> Result<(), NoMemory>
    ensures { OnOk result (out.new.items ≡ out.old.items ++ (canon_raw_32 (v % 4294967296) ++ canon_raw_32 (v / 4294967296))) }
{
    write_raw_32(out, (v % 4294967296) as u32)?;
    write_raw_32(out, (v / 4294967296) as u32)
}

fn write_labels(out: &mut Vec<u8>, labels: &[u32], other: u32) -> Result<(), NoMemory>
    requires { length (canon_counted shortest_u32 labels.now) < 2 ^ 32 }
    ensures { OnOk result (out.new.items ≡ out.old.items ++ (canon_counted shortest_u32 labels.now ++ shortest_u32 other)) }
{
    write_counted(out, labels)?;
    write_u32(out, other)
}

/// The number of an instruction on ranges of memory, and a byte 0 for each memory that it names.
fn write_bulk(out: &mut Vec<u8>, which: u32) -> Result<(), NoMemory>
    ensures { OnOk result (out.new.items ≡ out.old.items ++ (shortest_u32 which ++ memories_of which)) }
{
    write_u32(out, which)?;
    if which == MEMORY_COPY {
        write_byte(out, 0)?;
    }
    write_byte(out, 0)
}

/// What follows the opcode.
#[tactic(auto, using(crate::proofs::CodeLemmas::immediates_steps))]
fn write_immediates(out: &mut Vec<u8>, instr: &Instr) -> Result<(), NoMemory>
    requires proper { ProperImmediates (immediates instr.now) }
    requires short { length (canon_immediates (immediates instr.now)) < 2 ^ 32 }
    ensures { OnOk result (out.new.items ≡ out.old.items ++ canon_immediates (immediates instr.now)) }
{
    match instr {
        Instr::Br(x)
        | Instr::BrIf(x)
        | Instr::Call(x)
        | Instr::LocalGet(x)
        | Instr::LocalSet(x)
        | Instr::LocalTee(x)
        | Instr::GlobalGet(x)
        | Instr::GlobalSet(x) => write_u32(out, *x),
        Instr::BrTable(labels, other) => write_labels(out, labels.as_slice(), *other),
        Instr::CallIndirect(kind) => {
            write_u32(out, *kind)?;
            write_u32(out, 0)
        }
        Instr::Load(_, place) => write_address(out, place),
        Instr::Store(_, place) => write_address(out, place),
        Instr::MemorySize | Instr::MemoryGrow => write_byte(out, 0),
        Instr::I32Const(v) => write_i32_bits(out, *v),
        Instr::I64Const(v) => write_i64_bits(out, *v),
        Instr::Float(FloatInstr::Load(_, place)) => write_address(out, place),
        Instr::Float(FloatInstr::Store(_, place)) => write_address(out, place),
        Instr::Float(FloatInstr::Const32(v)) => write_raw_32(out, *v),
        Instr::Float(FloatInstr::Const64(v)) => write_raw_64(out, *v),
        Instr::Float(FloatInstr::Plain(_)) => Ok(()),
        Instr::Unreachable => Ok(()),
        Instr::Nop => Ok(()),
        Instr::Return => Ok(()),
        Instr::Drop => Ok(()),
        Instr::Select => Ok(()),
        Instr::Num(_) => Ok(()),
        Instr::Block(_, _) => Ok(()),
        Instr::Loop(_, _) => Ok(()),
        Instr::If(_, _, _) => Ok(()),
        Instr::MemoryCopy => write_bulk(out, MEMORY_COPY),
        Instr::MemoryFill => write_bulk(out, MEMORY_FILL),
    }
}

/// An instruction that holds no others.
fn write_plain(out: &mut Vec<u8>, instr: &Instr) -> Result<(), NoMemory>
    requires proper { ProperImmediates (immediates instr.now) }
    requires short { length (canon_plain instr.now) < 2 ^ 32 }
    ensures { OnOk result (out.new.items ≡ out.old.items ++ canon_plain instr.now) }
{
    write_byte(out, opcode_of(instr))?;
    write_immediates(out, instr)
}

/// A block or a loop: its opcode, its type, its contents and the end.
#[cycle(code)]
fn write_enclosed(
    out: &mut Vec<u8>,
    opening: u8,
    kind: Option<ValType>,
    code: &[Instr],
) -> Result<(), NoMemory>
    requires proper { ProperCode (code_of code.now) }
    requires short { length (canon_code (code_of code.now)) < 2 ^ 32 }
    ensures { OnOk result (out.new.items ≡ out.old.items ++ (opening ∷ kind_byte kind ∷ canon_code (code_of code.now) ++ 0x0B ∷ [])) }
{
    write_byte(out, opening)?;
    write_byte(out, block_byte(kind))?;
    write_code(out, code)?;
    write_byte(out, 0x0B)
}

/// The second arm of an if, where it isn't empty.
#[cycle(code)]
#[tactic(auto, using(crate::proofs::CodeLemmas::else_steps))]
fn write_else(out: &mut Vec<u8>, code: &[Instr]) -> Result<(), NoMemory>
    requires proper { ProperCode (code_of code.now) }
    requires short { length (canon_code (code_of code.now)) < 2 ^ 32 }
    ensures { OnOk result (out.new.items ≡ out.old.items ++ else_part (canon_code (code_of code.now))) }
{
    if code.is_empty() {
        return Ok(());
    }
    write_byte(out, 0x05)?;
    write_code(out, code)
}

#[cycle(code)]
#[tactic(auto, using(wasm_types::proofs::CodeLemmas::code_steps))]
fn write_if(
    out: &mut Vec<u8>,
    kind: Option<ValType>,
    first: &[Instr],
    second: &[Instr],
) -> Result<(), NoMemory>
    requires first { ProperCode (code_of first.now) }
    requires first_short { length (canon_code (code_of first.now)) < 2 ^ 32 }
    requires second { ProperCode (code_of second.now) }
    requires second_short { length (canon_code (code_of second.now)) < 2 ^ 32 }
    ensures { OnOk result (out.new.items ≡ out.old.items ++ (0x04 ∷ kind_byte kind ∷ canon_code (code_of first.now) ++ (else_part (canon_code (code_of second.now)) ++ 0x0B ∷ []))) }
{
    write_byte(out, 0x04)?;
    write_byte(out, block_byte(kind))?;
    write_code(out, first)?;
    write_else(out, second)?;
    write_byte(out, 0x0B)
}

#[cycle(code)]
#[tactic(auto, using(wasm_types::proofs::CodeLemmas::code_steps))]
fn write_instr(out: &mut Vec<u8>, instr: &Instr) -> Result<(), NoMemory>
    requires proper { ProperCode (onto instr.now done) }
    requires short { length (canon_code (onto instr.now done)) < 2 ^ 32 }
    ensures { OnOk result (out.new.items ≡ out.old.items ++ canon_code (onto instr.now done)) }
{
    match instr {
        Instr::Block(kind, inner) => write_enclosed(out, 0x02, *kind, inner.as_slice()),
        Instr::Loop(kind, inner) => write_enclosed(out, 0x03, *kind, inner.as_slice()),
        Instr::If(kind, first, second) => write_if(out, *kind, first.as_slice(), second.as_slice()),
        _ => write_plain(out, instr),
    }
}

/// A sequence of instructions.
#[cycle(code)]
fn write_code(out: &mut Vec<u8>, code: &[Instr]) -> Result<(), NoMemory>
    requires proper { ProperCode (code_of code.now) }
    requires short { length (canon_code (code_of code.now)) < 2 ^ 32 }
    ensures { OnOk result (out.new.items ≡ out.old.items ++ canon_code (code_of code.now)) }
{
    for instr in code {
        write_instr(out, instr)?;
    }
    Ok(())
}

/// An expression: a sequence and the end.
pub(crate) fn write_instrs(out: &mut Vec<u8>, code: &[Instr]) -> Result<(), NoMemory>
    requires proper { ProperInstrs code.now }
    requires short { length (canon_instrs code.now) < 2 ^ 32 }
    ensures { OnOk result (out.new.items ≡ out.old.items ++ canon_instrs code.now) }
{
    write_code(out, code)?;
    write_byte(out, 0x0B)
}
