//! Writers of numbers, each in the shortest spelling. Where memory is refused, nothing has been written.

ghost use Rattle.std.specs.Prelude.{◌≡◌, ◌<◌, ◌≤◌, ◌*◌, ◌+◌, ◌++◌, ◌↔◌, ℕ, IsTrue, min, OnOk, OnErr};
ghost use Rattle.std.specs.Int.{cast_unsigned, w32, w64};
ghost use Rattle.wasm_types.specs.Numbers.{shortest_u32, shortest_signed, shortest_s32, shortest_s64, half_of};

use wasm_types::NoMemory;

/// Appends the shortest text of an unsigned number.
pub fn write_u32(out: &mut Vec<u8>, v: u32) -> Result<(), NoMemory>
    ensures ok { OnOk result (out.new.items ≡ out.old.items ++ shortest_u32 v) }
    ensures err { OnErr result (out.new.items ≡ out.old.items) }
{
    let mut buf = [0u8; 5];
    let mut len = 0;
    let mut rest = v;
    while rest >= 128 {
        buf[len] = (rest % 128) as u8 + 128;
        rest /= 128;
        len += 1;
    }
    buf[len] = rest as u8;
    out.extend_from_slice(&buf[..len + 1])?;
    Ok(())
}

/// Whether a signed number needs more bytes than one: it is neither from 0 to 63 nor from -64 to -1. The number is given as in `write_signed`.
fn needs_more(v: u64, half: u64) -> bool
    requires { v < 2 * half }
    ensures { IsTrue result ↔ ((min half 64 ≤ v) × (v + 64 < 2 * half)) }
{
    v >= half.min(64) && (v < half || v - half + 64 < half)
}

/// Appends the shortest text of a signed number, given as the one from 0 on that is equal to it modulo twice `half`, 2 to the width.
/// The longest text has `form.1` bytes before the last, which has room for twice `form.0`.
fn write_signed(out: &mut Vec<u8>, v: u64, half: u64) -> Result<(), NoMemory>
    ghost form: { ℕ × ℕ }
    requires some { 0 < form.0 }
    requires few { form.0 ≤ 64 }
    requires room { form.1 ≤ 9 }
    requires width { half ≡ half_of form.0 form.1 }
    requires fits { v < 2 * half }
    ensures ok { OnOk result (out.new.items ≡ out.old.items ++ shortest_signed form.1 half v) }
    ensures err { OnErr result (out.new.items ≡ out.old.items) }
{
    let mut buf = [0u8; 10];
    let mut len = 0;
    let mut rest = v;
    let mut half = half;
    while needs_more(rest, half) {
        buf[len] = (rest % 128) as u8 + 128;
        rest /= 128;
        half /= 128;
        len += 1;
    }
    buf[len] = if rest < half {
        rest as u8
    } else {
        (rest - half + 128 - half) as u8
    };
    out.extend_from_slice(&buf[..len + 1])?;
    Ok(())
}

/// Appends the shortest text of a signed 32-bit number.
pub fn write_s32(out: &mut Vec<u8>, v: i32) -> Result<(), NoMemory>
    ensures ok { OnOk result (out.new.items ≡ out.old.items ++ shortest_s32 (cast_unsigned w32 v)) }
    ensures err { OnErr result (out.new.items ≡ out.old.items) }
{
    write_i32_bits(out, v.cast_unsigned())
}

/// Appends the shortest text of a signed 64-bit number.
pub fn write_s64(out: &mut Vec<u8>, v: i64) -> Result<(), NoMemory>
    ensures ok { OnOk result (out.new.items ≡ out.old.items ++ shortest_s64 (cast_unsigned w64 v)) }
    ensures err { OnErr result (out.new.items ≡ out.old.items) }
{
    write_i64_bits(out, v.cast_unsigned())
}

/// Appends the shortest text of the signed 32-bit number that has the same bits as `v`.
pub fn write_i32_bits(out: &mut Vec<u8>, v: u32) -> Result<(), NoMemory>
    ensures ok { OnOk result (out.new.items ≡ out.old.items ++ shortest_s32 v) }
    ensures err { OnErr result (out.new.items ≡ out.old.items) }
{
    write_signed(out, u64::from(v), 1 << 31)
}

/// Appends the shortest text of the signed 64-bit number that has the same bits as `v`.
pub fn write_i64_bits(out: &mut Vec<u8>, v: u64) -> Result<(), NoMemory>
    ensures ok { OnOk result (out.new.items ≡ out.old.items ++ shortest_s64 v) }
    ensures err { OnErr result (out.new.items ≡ out.old.items) }
{
    write_signed(out, v, 1 << 63)
}
