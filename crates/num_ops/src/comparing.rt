//! The comparisons of two integers.

ghost use Rattle.std.specs.Prelude.{◌≡◌, ◌<◌, ◌^◌};
ghost use Rattle.wasm_meaning.specs.Operations.{bits_of, related};
ghost use Rattle.wasm_types.specs.declared.ops.Width.TheVariants.{W32, W64};

use wasm_types::{RelOp, Width};

/// Whether two integers of this width are so related.
pub fn relation(op: RelOp, w: Width, a: u64, b: u64) -> bool
    requires left { a < 2 ^ bits_of w }
    requires right { b < 2 ^ bits_of w }
    ensures { result ≡ related w op a b }
{
    match w {
        Width::W32 => relation_32(op, a as u32, b as u32),
        Width::W64 => relation_64(op, a, b),
    }
}

fn relation_32(op: RelOp, a: u32, b: u32) -> bool
    ensures { result ≡ related W32 op a b }
{
    match op {
        RelOp::Eq => a == b,
        RelOp::Ne => a != b,
        RelOp::LtS => a.cast_signed() < b.cast_signed(),
        RelOp::LtU => a < b,
        RelOp::GtS => a.cast_signed() > b.cast_signed(),
        RelOp::GtU => a > b,
        RelOp::LeS => a.cast_signed() <= b.cast_signed(),
        RelOp::LeU => a <= b,
        RelOp::GeS => a.cast_signed() >= b.cast_signed(),
        RelOp::GeU => a >= b,
    }
}

fn relation_64(op: RelOp, a: u64, b: u64) -> bool
    ensures { result ≡ related W64 op a b }
{
    match op {
        RelOp::Eq => a == b,
        RelOp::Ne => a != b,
        RelOp::LtS => a.cast_signed() < b.cast_signed(),
        RelOp::LtU => a < b,
        RelOp::GtS => a.cast_signed() > b.cast_signed(),
        RelOp::GtU => a > b,
        RelOp::LeS => a.cast_signed() <= b.cast_signed(),
        RelOp::LeU => a <= b,
        RelOp::GeS => a.cast_signed() >= b.cast_signed(),
        RelOp::GeU => a >= b,
    }
}
