//! Readers of numbers.

ghost use Rattle.std.specs.Prelude.{◌≤◌, ◌<◌, ◌*◌, IfSome, length};
ghost use Rattle.wasm_types.specs.Numbers.{SpellsUnsigned, SpellsU32, SpellsSigned, SpellsI32, SpellsI64};
ghost use Rattle.wasm_types.specs.Standing.{Reads};

/// Reads a number below `limit`, 2 to its width. Each byte but the last takes seven bits of the width.
fn read_unsigned(bytes: &[u8], at: usize, limit: u64) -> Option<(u64, usize)>
    requires { limit ≤ 4294967296 }
    ensures exact { Reads (SpellsUnsigned limit) bytes.now at result }
    ensures below { IfSome result (λ found. found.0 < limit) }
{
    if at >= bytes.len() {
        return None;
    }
    let byte = u64::from(bytes[at]);
    if byte < 128 {
        if byte < limit {
            Some((byte, at + 1))
        } else {
            None
        }
    } else if limit <= 128 {
        None
    } else {
        match read_unsigned(bytes, at + 1, limit / 128) {
            Some((high, end)) => Some((byte - 128 + 128 * high, end)),
            None => None,
        }
    }
}

/// Reads a signed number, as the one from 0 on that is equal to it modulo twice `half`, which is 2 to the width.
fn read_signed(bytes: &[u8], at: usize, half: u64) -> Option<(u64, usize)>
    requires { half ≤ 9223372036854775808 }
    ensures exact { Reads (SpellsSigned half) bytes.now at result }
    ensures below { IfSome result (λ found. found.0 < 2 * half) }
{
    if at >= bytes.len() {
        return None;
    }
    let byte = u64::from(bytes[at]);
    if byte < 64 {
        if byte < half {
            Some((byte, at + 1))
        } else {
            None
        }
    } else if byte < 128 {
        let below = 128 - byte;
        if below <= half {
            Some((half - below + half, at + 1))
        } else {
            None
        }
    } else if half <= 64 {
        None
    } else {
        match read_signed(bytes, at + 1, half / 128) {
            Some((high, end)) => Some((byte - 128 + 128 * high, end)),
            None => None,
        }
    }
}

/// The unsigned 32-bit number that a text of it at `at` spells, and the place after the text. `None` where none stands
/// there: the bytes end too soon, the text is longer than five bytes, or the number is too great.
pub fn read_u32(bytes: &[u8], at: usize) -> Option<(u32, usize)>
    ensures { Reads SpellsU32 bytes.now at result }
{
    // Most numbers are of one byte, and this branch is short enough to be copied into the callers.
    if at < bytes.len() && bytes[at] < 128 {
        return Some((u32::from(bytes[at]), at + 1));
    }
    match read_unsigned(bytes, at, 1 << 32) {
        Some((value, end)) => Some((value as u32, end)),
        None => None,
    }
}

/// The signed 32-bit number that a text of it at `at` spells, and the place after the text. `None` where none stands
/// there: the bytes end too soon, the text is longer than five bytes, or the number is out of range.
pub fn read_s32(bytes: &[u8], at: usize) -> Option<(i32, usize)>
    ensures { Reads SpellsI32 bytes.now at result }
{
    match read_signed(bytes, at, 1 << 31) {
        Some((value, end)) => Some(((value as u32).cast_signed(), end)),
        None => None,
    }
}

/// The signed 64-bit number that a text of it at `at` spells, and the place after the text. `None` where none stands
/// there: the bytes end too soon, the text is longer than ten bytes, or the number is out of range.
pub fn read_s64(bytes: &[u8], at: usize) -> Option<(i64, usize)>
    ensures { Reads SpellsI64 bytes.now at result }
{
    match read_signed(bytes, at, 1 << 63) {
        Some((value, end)) => Some((value.cast_signed(), end)),
        None => None,
    }
}
