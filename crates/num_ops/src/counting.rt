//! The operations on one integer.

ghost use Rattle.std.specs.Prelude.{◌≡◌, ◌<◌, ◌^◌};
ghost use Rattle.wasm_meaning.specs.Operations.{bits_of};
ghost use Rattle.wasm_meaning.specs.Operations.{unary as unary_of};
ghost use Rattle.wasm_types.specs.declared.ops.Width.TheVariants.{W32, W64};

use wasm_types::{UnOp, Width};

/// The zeros above or below the highest or lowest one, or the ones, of an integer of this width.
pub fn unary(op: UnOp, w: Width, a: u64) -> u64
    requires { a < 2 ^ bits_of w }
    ensures value { result ≡ unary_of w op a }
    ensures fits { result < 2 ^ bits_of w }
{
    match w {
        Width::W32 => unary_32(op, a as u32) as u64,
        Width::W64 => unary_64(op, a) as u64,
    }
}

fn unary_32(op: UnOp, a: u32) -> u32
    ensures { result ≡ unary_of W32 op a }
{
    match op {
        UnOp::Clz => a.leading_zeros(),
        UnOp::Ctz => a.trailing_zeros(),
        UnOp::Popcnt => a.count_ones(),
    }
}

fn unary_64(op: UnOp, a: u64) -> u32
    ensures { result ≡ unary_of W64 op a }
{
    match op {
        UnOp::Clz => a.leading_zeros(),
        UnOp::Ctz => a.trailing_zeros(),
        UnOp::Popcnt => a.count_ones(),
    }
}
