//! Integers of one width from those of another, and from their low bits.

ghost use Rattle.std.specs.Prelude.{◌≡◌, ◌<◌, ◌%◌, ◌^◌};
ghost use Rattle.wasm_meaning.specs.Operations.{bits_of, low_width, signed, unsigned};
ghost use Rattle.wasm_meaning.specs.Operations.{extend_low as extended_low};
ghost use Rattle.wasm_types.specs.declared.ops.Width.TheVariants.{W32, W64};
ghost use Rattle.std.specs.Int.{cast_signed, w8, w16};

use wasm_types::LowOp;

/// The low 32 bits.
pub fn wrap(a: u64) -> u32
    ensures { result ≡ a % 2 ^ 32 }
{
    (a % 0x1_0000_0000) as u32
}

/// The 64-bit integer of the same signed value.
pub fn extend_s(a: u32) -> u64
    ensures { result ≡ unsigned W64 (signed W32 a) }
{
    (a.cast_signed() as i64).cast_unsigned()
}

/// The 64-bit integer of the same unsigned value.
pub fn extend_u(a: u32) -> u64
    ensures { result ≡ a }
{
    a as u64
}

/// The integer of the same type whose signed value its low bits give.
pub fn extend_low(op: LowOp, a: u64) -> u64
    requires { a < 2 ^ bits_of (low_width op) }
    ensures value { result ≡ extended_low op a }
    ensures fits { result < 2 ^ bits_of (low_width op) }
{
    match op {
        LowOp::I32S8 => (low_8(a) as i32).cast_unsigned() as u64,
        LowOp::I32S16 => (low_16(a) as i32).cast_unsigned() as u64,
        LowOp::I64S8 => (low_8(a) as i64).cast_unsigned(),
        LowOp::I64S16 => (low_16(a) as i64).cast_unsigned(),
        LowOp::I64S32 => extend_s(wrap(a)),
    }
}

fn low_8(a: u64) -> i8
    ensures { result ≡ cast_signed w8 (a % 2 ^ 8) }
{
    ((a % 0x100) as u8).cast_signed()
}

fn low_16(a: u64) -> i16
    ensures { result ≡ cast_signed w16 (a % 2 ^ 16) }
{
    ((a % 0x1_0000) as u16).cast_signed()
}
