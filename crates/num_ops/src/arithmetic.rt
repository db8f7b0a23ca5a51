//! The operations on two integers, some of which trap.

ghost use Rattle.std.specs.Prelude.{◌≡◌, ◌<◌, ◌^◌};
ghost use Rattle.num_ops.specs.Answers.{answer_of};
ghost use Rattle.wasm_meaning.specs.Operations.{bits_of};
ghost use Rattle.wasm_meaning.specs.Operations.{binary as binary_of};
ghost use Rattle.wasm_types.specs.declared.ops.BinOp.TheVariants as bin;
ghost use Rattle.wasm_types.specs.declared.ops.Width.TheVariants.{W32, W64};

use wasm_types::{BinOp, Reason, Width};

/// What the operation makes of two integers of this width. `DivideByZero` comes exactly where a divisor is 0, and `Overflow` where the least integer is
/// divided by -1.
// Inlined, since a call hands its answer through memory and takes twice the time.
#[inline(always)]
pub fn binary(op: BinOp, w: Width, a: u64, b: u64) -> Result<u64, Reason>
    requires left { a < 2 ^ bits_of w }
    requires right { b < 2 ^ bits_of w }
    ensures { result ≡ answer_of w (binary_of w op a b) }
{
    match w {
        Width::W32 => binary_32(op, a as u32, b as u32),
        Width::W64 => binary_64(op, a, b),
    }
}

// The answers are as wide as those of 64 bits, so that nothing is asked of them again.
fn binary_32(op: BinOp, a: u32, b: u32) -> Result<u64, Reason>
    ensures { result ≡ answer_of W32 (binary_of W32 op a b) }
{
    match op {
        BinOp::Add => Ok(u64::from(a.wrapping_add(b))),
        BinOp::Sub => Ok(u64::from(a.wrapping_sub(b))),
        BinOp::Mul => Ok(u64::from(a.wrapping_mul(b))),
        BinOp::DivS => signed_quotient_32(a, b),
        BinOp::DivU => match a.checked_div(b) {
            Some(quotient) => Ok(u64::from(quotient)),
            None => Err(Reason::DivideByZero),
        },
        BinOp::RemS => signed_remainder_32(a, b),
        BinOp::RemU => match a.checked_rem(b) {
            Some(remainder) => Ok(u64::from(remainder)),
            None => Err(Reason::DivideByZero),
        },
        BinOp::And => Ok(u64::from(a & b)),
        BinOp::Or => Ok(u64::from(a | b)),
        BinOp::Xor => Ok(u64::from(a ^ b)),
        BinOp::Shl => Ok(u64::from(a << (b % 32))),
        BinOp::ShrS => Ok(u64::from((a.cast_signed() >> (b % 32)).cast_unsigned())),
        BinOp::ShrU => Ok(u64::from(a >> (b % 32))),
        BinOp::Rotl => Ok(u64::from(a.rotate_left(b))),
        BinOp::Rotr => Ok(u64::from(a.rotate_right(b))),
    }
}

fn signed_quotient_32(a: u32, b: u32) -> Result<u64, Reason>
    ensures { result ≡ answer_of W32 (binary_of W32 bin.DivS a b) }
{
    if b == 0 {
        Err(Reason::DivideByZero)
    } else if a == 0x8000_0000 && b == u32::MAX {
        Err(Reason::Overflow)
    } else {
        let quotient = (a.cast_signed() / b.cast_signed()).cast_unsigned();
        Ok(u64::from(quotient))
    }
}

fn signed_remainder_32(a: u32, b: u32) -> Result<u64, Reason>
    ensures { result ≡ answer_of W32 (binary_of W32 bin.RemS a b) }
{
    if b == 0 {
        Err(Reason::DivideByZero)
    } else {
        let remainder = a.cast_signed().wrapping_rem(b.cast_signed());
        Ok(u64::from(remainder.cast_unsigned()))
    }
}

fn binary_64(op: BinOp, a: u64, b: u64) -> Result<u64, Reason>
    ensures { result ≡ answer_of W64 (binary_of W64 op a b) }
{
    match op {
        BinOp::Add => Ok(a.wrapping_add(b)),
        BinOp::Sub => Ok(a.wrapping_sub(b)),
        BinOp::Mul => Ok(a.wrapping_mul(b)),
        BinOp::DivS => signed_quotient_64(a, b),
        BinOp::DivU => a.checked_div(b).ok_or(Reason::DivideByZero),
        BinOp::RemS => signed_remainder_64(a, b),
        BinOp::RemU => a.checked_rem(b).ok_or(Reason::DivideByZero),
        BinOp::And => Ok(a & b),
        BinOp::Or => Ok(a | b),
        BinOp::Xor => Ok(a ^ b),
        BinOp::Shl => Ok(a << (b % 64)),
        BinOp::ShrS => Ok((a.cast_signed() >> (b % 64)).cast_unsigned()),
        BinOp::ShrU => Ok(a >> (b % 64)),
        BinOp::Rotl => Ok(a.rotate_left((b % 64) as u32)),
        BinOp::Rotr => Ok(a.rotate_right((b % 64) as u32)),
    }
}

fn signed_quotient_64(a: u64, b: u64) -> Result<u64, Reason>
    ensures { result ≡ answer_of W64 (binary_of W64 bin.DivS a b) }
{
    if b == 0 {
        Err(Reason::DivideByZero)
    } else if a == 0x8000_0000_0000_0000 && b == u64::MAX {
        Err(Reason::Overflow)
    } else {
        Ok((a.cast_signed() / b.cast_signed()).cast_unsigned())
    }
}

fn signed_remainder_64(a: u64, b: u64) -> Result<u64, Reason>
    ensures { result ≡ answer_of W64 (binary_of W64 bin.RemS a b) }
{
    if b == 0 {
        Err(Reason::DivideByZero)
    } else {
        let remainder = a.cast_signed().wrapping_rem(b.cast_signed());
        Ok(remainder.cast_unsigned())
    }
}
