//! The opcodes of operations on integers, of loads and of stores (sections 5.4.4 and 5.4.5).

ghost use Rattle.std.specs.Prelude.{◌≡◌};
ghost use Rattle.wasm_types.specs.Plain.{num_opcode, load_opcode, store_opcode};
ghost use Rattle.opcode_table.specs.Table.{ReadsBack};

use crate::table::{byte_of, item_at};
use wasm_types::{BinOp, LoadOp, LowOp, NumOp, RelOp, StoreOp, UnOp, Width};

macro_rules! operations {
    ($direction:ident, $given:expr) => {
        $direction!($given;
            0x45 = (NumOp::Eqz(Width::W32)),
            0x46 = (NumOp::Rel(Width::W32, RelOp::Eq)),
            0x47 = (NumOp::Rel(Width::W32, RelOp::Ne)),
            0x48 = (NumOp::Rel(Width::W32, RelOp::LtS)),
            0x49 = (NumOp::Rel(Width::W32, RelOp::LtU)),
            0x4A = (NumOp::Rel(Width::W32, RelOp::GtS)),
            0x4B = (NumOp::Rel(Width::W32, RelOp::GtU)),
            0x4C = (NumOp::Rel(Width::W32, RelOp::LeS)),
            0x4D = (NumOp::Rel(Width::W32, RelOp::LeU)),
            0x4E = (NumOp::Rel(Width::W32, RelOp::GeS)),
            0x4F = (NumOp::Rel(Width::W32, RelOp::GeU)),
            0x50 = (NumOp::Eqz(Width::W64)),
            0x51 = (NumOp::Rel(Width::W64, RelOp::Eq)),
            0x52 = (NumOp::Rel(Width::W64, RelOp::Ne)),
            0x53 = (NumOp::Rel(Width::W64, RelOp::LtS)),
            0x54 = (NumOp::Rel(Width::W64, RelOp::LtU)),
            0x55 = (NumOp::Rel(Width::W64, RelOp::GtS)),
            0x56 = (NumOp::Rel(Width::W64, RelOp::GtU)),
            0x57 = (NumOp::Rel(Width::W64, RelOp::LeS)),
            0x58 = (NumOp::Rel(Width::W64, RelOp::LeU)),
            0x59 = (NumOp::Rel(Width::W64, RelOp::GeS)),
            0x5A = (NumOp::Rel(Width::W64, RelOp::GeU)),
            0x67 = (NumOp::Un(Width::W32, UnOp::Clz)),
            0x68 = (NumOp::Un(Width::W32, UnOp::Ctz)),
            0x69 = (NumOp::Un(Width::W32, UnOp::Popcnt)),
            0x6A = (NumOp::Bin(Width::W32, BinOp::Add)),
            0x6B = (NumOp::Bin(Width::W32, BinOp::Sub)),
            0x6C = (NumOp::Bin(Width::W32, BinOp::Mul)),
            0x6D = (NumOp::Bin(Width::W32, BinOp::DivS)),
            0x6E = (NumOp::Bin(Width::W32, BinOp::DivU)),
            0x6F = (NumOp::Bin(Width::W32, BinOp::RemS)),
            0x70 = (NumOp::Bin(Width::W32, BinOp::RemU)),
            0x71 = (NumOp::Bin(Width::W32, BinOp::And)),
            0x72 = (NumOp::Bin(Width::W32, BinOp::Or)),
            0x73 = (NumOp::Bin(Width::W32, BinOp::Xor)),
            0x74 = (NumOp::Bin(Width::W32, BinOp::Shl)),
            0x75 = (NumOp::Bin(Width::W32, BinOp::ShrS)),
            0x76 = (NumOp::Bin(Width::W32, BinOp::ShrU)),
            0x77 = (NumOp::Bin(Width::W32, BinOp::Rotl)),
            0x78 = (NumOp::Bin(Width::W32, BinOp::Rotr)),
            0x79 = (NumOp::Un(Width::W64, UnOp::Clz)),
            0x7A = (NumOp::Un(Width::W64, UnOp::Ctz)),
            0x7B = (NumOp::Un(Width::W64, UnOp::Popcnt)),
            0x7C = (NumOp::Bin(Width::W64, BinOp::Add)),
            0x7D = (NumOp::Bin(Width::W64, BinOp::Sub)),
            0x7E = (NumOp::Bin(Width::W64, BinOp::Mul)),
            0x7F = (NumOp::Bin(Width::W64, BinOp::DivS)),
            0x80 = (NumOp::Bin(Width::W64, BinOp::DivU)),
            0x81 = (NumOp::Bin(Width::W64, BinOp::RemS)),
            0x82 = (NumOp::Bin(Width::W64, BinOp::RemU)),
            0x83 = (NumOp::Bin(Width::W64, BinOp::And)),
            0x84 = (NumOp::Bin(Width::W64, BinOp::Or)),
            0x85 = (NumOp::Bin(Width::W64, BinOp::Xor)),
            0x86 = (NumOp::Bin(Width::W64, BinOp::Shl)),
            0x87 = (NumOp::Bin(Width::W64, BinOp::ShrS)),
            0x88 = (NumOp::Bin(Width::W64, BinOp::ShrU)),
            0x89 = (NumOp::Bin(Width::W64, BinOp::Rotl)),
            0x8A = (NumOp::Bin(Width::W64, BinOp::Rotr)),
            0xA7 = (NumOp::Wrap),
            0xAC = (NumOp::ExtendS),
            0xAD = (NumOp::ExtendU),
            0xC0 = (NumOp::Low(LowOp::I32S8)),
            0xC1 = (NumOp::Low(LowOp::I32S16)),
            0xC2 = (NumOp::Low(LowOp::I64S8)),
            0xC3 = (NumOp::Low(LowOp::I64S16)),
            0xC4 = (NumOp::Low(LowOp::I64S32)),
        )
    };
}

macro_rules! loads {
    ($direction:ident, $given:expr) => {
        $direction!($given;
            0x28 = (LoadOp::I32),
            0x29 = (LoadOp::I64),
            0x2C = (LoadOp::I32S8),
            0x2D = (LoadOp::I32U8),
            0x2E = (LoadOp::I32S16),
            0x2F = (LoadOp::I32U16),
            0x30 = (LoadOp::I64S8),
            0x31 = (LoadOp::I64U8),
            0x32 = (LoadOp::I64S16),
            0x33 = (LoadOp::I64U16),
            0x34 = (LoadOp::I64S32),
            0x35 = (LoadOp::I64U32),
        )
    };
}

macro_rules! stores {
    ($direction:ident, $given:expr) => {
        $direction!($given;
            0x36 = (StoreOp::I32),
            0x37 = (StoreOp::I64),
            0x3A = (StoreOp::I32B8),
            0x3B = (StoreOp::I32B16),
            0x3C = (StoreOp::I64B8),
            0x3D = (StoreOp::I64B16),
            0x3E = (StoreOp::I64B32),
        )
    };
}

/// The operation of an opcode.
pub fn num_op(byte: u8) -> Option<NumOp>
    ensures { ReadsBack num_opcode byte result }
{
    operations!(item_at, byte)
}

/// The opcode of an operation.
pub fn num_byte(op: NumOp) -> u8
    ensures { result ≡ num_opcode op }
{
    operations!(byte_of, op)
}

/// The load of an opcode.
pub fn load_op(byte: u8) -> Option<LoadOp>
    ensures { ReadsBack load_opcode byte result }
{
    loads!(item_at, byte)
}

/// The opcode of a load.
pub fn load_byte(op: LoadOp) -> u8
    ensures { result ≡ load_opcode op }
{
    loads!(byte_of, op)
}

/// The store of an opcode.
pub fn store_op(byte: u8) -> Option<StoreOp>
    ensures { ReadsBack store_opcode byte result }
{
    stores!(item_at, byte)
}

/// The opcode of a store.
pub fn store_byte(op: StoreOp) -> u8
    ensures { result ≡ store_opcode op }
{
    stores!(byte_of, op)
}
