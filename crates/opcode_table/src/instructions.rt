//! Plain instructions by their opcodes, and what follows these (section 5.4).

ghost use Rattle.std.specs.Prelude.{◌≡◌, ℕ, List, Some};
ghost use Rattle.wasm_types.specs.declared.instr.Instr.TheVariants.{BrTable};
ghost use Rattle.wasm_types.specs.Plain.{float_plain, nothing, number, labels, signature, address, memory, signed_32, signed_64, raw_32, raw_64, bulk, opcode};
ghost use Rattle.opcode_table.specs.declared.instructions.Following.TheVariants as kind;
ghost use Rattle.opcode_table.specs.Table.{Follows, Makes};

use crate::operations::{load_byte, load_op, num_byte, num_op, store_byte, store_op};
use sqlite_items::Items;
use wasm_types::{FloatInstr, Instr, MemArg};

/// The number that tells `memory.copy` behind its opcode.
pub const MEMORY_COPY: u32 = 10;

/// The number that tells `memory.fill` behind its opcode.
pub const MEMORY_FILL: u32 = 11;

/// What follows an opcode: nothing, a number, labels, and so on.
#[derive(Clone, Copy, Debug, PartialEq, Eq)]
pub enum Following {
    Nothing,
    /// A label, a function, a local or a global.
    Number,
    /// A vector of labels, and one more label.
    Labels,
    /// A type, and a table.
    Signature,
    /// An alignment and an offset.
    Address,
    /// A memory.
    Memory,
    Signed32,
    Signed64,
    /// Four bytes.
    Raw32,
    /// Eight bytes.
    Raw64,
    /// The number of an instruction on ranges of memory, and the memories.
    Bulk,
}

/// What follows an opcode: none where it is none of a plain instruction.
pub fn what_follows(byte: u8) -> Option<Following>
    ensures follows { Follows byte result }
    ensures labels { result ≡ Some kind.Labels → (some : List ℕ) (other : ℕ) → opcode (BrTable some other) ≡ byte }
{
    match byte {
        0x00..=0x01 | 0x0F | 0x1A..=0x1B | 0x45..=0xC4 => Some(Following::Nothing),
        0x0C..=0x0D | 0x10 | 0x20..=0x24 => Some(Following::Number),
        0x0E => Some(Following::Labels),
        0x11 => Some(Following::Signature),
        0x28..=0x3E => Some(Following::Address),
        0x3F..=0x40 => Some(Following::Memory),
        0x41 => Some(Following::Signed32),
        0x42 => Some(Following::Signed64),
        0x43 => Some(Following::Raw32),
        0x44 => Some(Following::Raw64),
        0xFC => Some(Following::Bulk),
        _ => None,
    }
}

fn is_float_plain(byte: u8) -> bool
    ensures { result ≡ float_plain byte }
{
    matches!(byte, 0x5B..=0x66 | 0x8B..=0xA6 | 0xA8..=0xAB | 0xAE..=0xBF)
}

/// The instruction that an opcode is by itself.
pub fn bare(byte: u8) -> Option<Instr>
    ensures { Makes byte nothing result }
{
    match byte {
        0x00 => Some(Instr::Unreachable),
        0x01 => Some(Instr::Nop),
        0x0F => Some(Instr::Return),
        0x1A => Some(Instr::Drop),
        0x1B => Some(Instr::Select),
        _ => {
            if let Some(op) = num_op(byte) {
                return Some(Instr::Num(op));
            }
            if is_float_plain(byte) {
                return Some(Instr::Float(FloatInstr::Plain(byte)));
            }
            None
        }
    }
}

/// The instruction of an opcode and a number.
pub fn with_number(byte: u8, x: u32) -> Option<Instr>
    ensures { Makes byte (number x) result }
{
    match byte {
        0x0C => Some(Instr::Br(x)),
        0x0D => Some(Instr::BrIf(x)),
        0x10 => Some(Instr::Call(x)),
        0x20 => Some(Instr::LocalGet(x)),
        0x21 => Some(Instr::LocalSet(x)),
        0x22 => Some(Instr::LocalTee(x)),
        0x23 => Some(Instr::GlobalGet(x)),
        0x24 => Some(Instr::GlobalSet(x)),
        _ => None,
    }
}

/// The instruction of an opcode and labels.
pub fn with_labels(byte: u8, some: Items<u32>, other: u32) -> Option<Instr>
    ensures { Makes byte (labels some other) result }
{
    if byte != 0x0E {
        return None;
    }
    Some(Instr::BrTable(some, other))
}

/// The instruction of an opcode and a type, whose table is number 0.
pub fn with_signature(byte: u8, kind: u32) -> Option<Instr>
    ensures { Makes byte (signature kind) result }
{
    match byte {
        0x11 => Some(Instr::CallIndirect(kind)),
        _ => None,
    }
}

/// The load or store of an opcode.
pub fn with_address(byte: u8, place: MemArg) -> Option<Instr>
    ensures { Makes byte (address place.align place.offset) result }
{
    match byte {
        0x2A | 0x2B => Some(Instr::Float(FloatInstr::Load(byte, place))),
        0x38 | 0x39 => Some(Instr::Float(FloatInstr::Store(byte, place))),
        _ => {
            if let Some(op) = load_op(byte) {
                return Some(Instr::Load(op, place));
            }
            if let Some(op) = store_op(byte) {
                return Some(Instr::Store(op, place));
            }
            None
        }
    }
}

/// The instruction of an opcode and a memory.
pub fn with_memory(byte: u8) -> Option<Instr>
    ensures { Makes byte memory result }
{
    match byte {
        0x3F => Some(Instr::MemorySize),
        0x40 => Some(Instr::MemoryGrow),
        _ => None,
    }
}

/// The instruction of an opcode and a signed number of 32 bits.
pub fn with_signed_32(byte: u8, value: u32) -> Option<Instr>
    ensures { Makes byte (signed_32 value) result }
{
    match byte {
        0x41 => Some(Instr::I32Const(value)),
        _ => None,
    }
}

/// The instruction of an opcode and a signed number of 64 bits.
pub fn with_signed_64(byte: u8, value: u64) -> Option<Instr>
    ensures { Makes byte (signed_64 value) result }
{
    match byte {
        0x42 => Some(Instr::I64Const(value)),
        _ => None,
    }
}

/// The instruction of an opcode and four bytes.
pub fn with_raw_32(byte: u8, value: u32) -> Option<Instr>
    ensures { Makes byte (raw_32 value) result }
{
    match byte {
        0x43 => Some(Instr::Float(FloatInstr::Const32(value))),
        _ => None,
    }
}

/// The instruction of an opcode and eight bytes.
pub fn with_raw_64(byte: u8, value: u64) -> Option<Instr>
    ensures { Makes byte (raw_64 value) result }
{
    match byte {
        0x44 => Some(Instr::Float(FloatInstr::Const64(value))),
        _ => None,
    }
}

/// The instruction on ranges of memory of an opcode and a number.
pub fn with_bulk(byte: u8, which: u32) -> Option<Instr>
    ensures { Makes byte (bulk which) result }
{
    match (byte, which) {
        (0xFC, MEMORY_COPY) => Some(Instr::MemoryCopy),
        (0xFC, MEMORY_FILL) => Some(Instr::MemoryFill),
        _ => None,
    }
}

/// The opcode of an instruction.
#[tactic(auto, using(crate::proofs::TableLemmas::opcode_steps))]
pub fn opcode_of(instr: &Instr) -> u8
    ensures { result ≡ opcode instr.now }
{
    match instr {
        Instr::Unreachable => 0x00,
        Instr::Nop => 0x01,
        Instr::Block(_, _) => 0x02,
        Instr::Loop(_, _) => 0x03,
        Instr::If(_, _, _) => 0x04,
        Instr::Br(_) => 0x0C,
        Instr::BrIf(_) => 0x0D,
        Instr::BrTable(_, _) => 0x0E,
        Instr::Return => 0x0F,
        Instr::Call(_) => 0x10,
        Instr::CallIndirect(_) => 0x11,
        Instr::Drop => 0x1A,
        Instr::Select => 0x1B,
        Instr::LocalGet(_) => 0x20,
        Instr::LocalSet(_) => 0x21,
        Instr::LocalTee(_) => 0x22,
        Instr::GlobalGet(_) => 0x23,
        Instr::GlobalSet(_) => 0x24,
        Instr::Load(op, _) => load_byte(*op),
        Instr::Store(op, _) => store_byte(*op),
        Instr::MemorySize => 0x3F,
        Instr::MemoryGrow => 0x40,
        Instr::I32Const(_) => 0x41,
        Instr::I64Const(_) => 0x42,
        Instr::Num(op) => num_byte(*op),
        Instr::Float(FloatInstr::Const32(_)) => 0x43,
        Instr::Float(FloatInstr::Const64(_)) => 0x44,
        Instr::Float(FloatInstr::Load(byte, _)) => *byte,
        Instr::Float(FloatInstr::Store(byte, _)) => *byte,
        Instr::Float(FloatInstr::Plain(byte)) => *byte,
        Instr::MemoryCopy | Instr::MemoryFill => 0xFC,
    }
}
