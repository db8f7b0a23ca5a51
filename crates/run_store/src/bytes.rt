//! Numbers in bytes, the least byte first, and ranges of bytes.

ghost use Rattle.std.specs.Prelude.{◌≡◌, ◌+◌, ◌≤◌, length, replicate};
ghost use Rattle.wasm_meaning.specs.Memory.{bytes_at, bytes_of, number_from, written};
ghost use Rattle.run_store.specs.Pages.{IsWidth};

/// The number in two bytes from an address on.
fn two_at(bytes: &[u8], at: usize) -> u16
    requires { at + 2 ≤ length bytes.now }
    ensures { result ≡ number_from (bytes_at at 2 bytes.now) }
{
    u16::from_le_bytes([bytes[at], bytes[at + 1]])
}

/// The number in four bytes from an address on.
fn four_at(bytes: &[u8], at: usize) -> u32
    requires { at + 4 ≤ length bytes.now }
    ensures { result ≡ number_from (bytes_at at 4 bytes.now) }
{
    u32::from_le_bytes([bytes[at], bytes[at + 1], bytes[at + 2], bytes[at + 3]])
}

/// The number in eight bytes from an address on.
fn eight_at(bytes: &[u8], at: usize) -> u64
    requires { at + 8 ≤ length bytes.now }
    ensures { result ≡ number_from (bytes_at at 8 bytes.now) }
{
    u64::from_le_bytes([
        bytes[at],
        bytes[at + 1],
        bytes[at + 2],
        bytes[at + 3],
        bytes[at + 4],
        bytes[at + 5],
        bytes[at + 6],
        bytes[at + 7],
    ])
}

/// Writes the low byte of a number at an address.
fn put_one(bytes: &mut [u8], at: usize, number: u64)
    requires { at + 1 ≤ length bytes.old }
    ensures { bytes.new ≡ written at (bytes_of 1 number) bytes.old }
{
    let low = number.to_le_bytes();
    bytes[at] = low[0];
}

/// Writes the low two bytes of a number from an address on.
fn put_two(bytes: &mut [u8], at: usize, number: u64)
    requires { at + 2 ≤ length bytes.old }
    ensures { bytes.new ≡ written at (bytes_of 2 number) bytes.old }
{
    let low = number.to_le_bytes();
    bytes[at] = low[0];
    bytes[at + 1] = low[1];
}

/// Writes the low four bytes of a number from an address on.
fn put_four(bytes: &mut [u8], at: usize, number: u64)
    requires { at + 4 ≤ length bytes.old }
    ensures { bytes.new ≡ written at (bytes_of 4 number) bytes.old }
{
    let low = number.to_le_bytes();
    bytes[at] = low[0];
    bytes[at + 1] = low[1];
    bytes[at + 2] = low[2];
    bytes[at + 3] = low[3];
}

/// Writes the eight bytes of a number from an address on.
fn put_eight(bytes: &mut [u8], at: usize, number: u64)
    requires { at + 8 ≤ length bytes.old }
    ensures { bytes.new ≡ written at (bytes_of 8 number) bytes.old }
{
    let low = number.to_le_bytes();
    bytes[at] = low[0];
    bytes[at + 1] = low[1];
    bytes[at + 2] = low[2];
    bytes[at + 3] = low[3];
    bytes[at + 4] = low[4];
    bytes[at + 5] = low[5];
    bytes[at + 6] = low[6];
    bytes[at + 7] = low[7];
}

/// The number in 1, 2, 4 or 8 bytes from an address on.
// Inlined, so that a width that is known is not asked for.
#[inline(always)]
pub(crate) fn load_number(bytes: &[u8], at: usize, width: u32) -> u64
    requires width { IsWidth width }
    requires within { at + width ≤ length bytes.now }
    ensures { result ≡ number_from (bytes_at at width bytes.now) }
{
    match width {
        1 => u64::from(bytes[at]),
        2 => u64::from(two_at(bytes, at)),
        4 => u64::from(four_at(bytes, at)),
        _ => eight_at(bytes, at),
    }
}

/// Writes the low 1, 2, 4 or 8 bytes of a number from an address on.
// Inlined, so that a width that is known is not asked for.
#[inline(always)]
pub(crate) fn store_number(bytes: &mut [u8], at: usize, width: u32, number: u64)
    requires width { IsWidth width }
    requires within { at + width ≤ length bytes.old }
    ensures { bytes.new ≡ written at (bytes_of width number) bytes.old }
{
    match width {
        1 => put_one(bytes, at, number),
        2 => put_two(bytes, at, number),
        4 => put_four(bytes, at, number),
        _ => put_eight(bytes, at, number),
    }
}

/// Writes these bytes from an address on.
pub(crate) fn put_bytes(bytes: &mut [u8], at: usize, these: &[u8])
    requires { at + length these.now ≤ length bytes.old }
    ensures { bytes.new ≡ written at these.now bytes.old }
{
    bytes[at..at + these.len()].copy_from_slice(these);
}

/// Copies a range of bytes to an address, as if by way of a copy elsewhere.
pub(crate) fn copy_range(bytes: &mut [u8], to: usize, from: usize, count: usize)
    requires from { from + count ≤ length bytes.old }
    requires to { to + count ≤ length bytes.old }
    ensures { bytes.new ≡ written to (bytes_at from count bytes.old) bytes.old }
{
    bytes.copy_within(from..from + count, to);
}

/// Writes one byte all over a range.
pub(crate) fn fill_range(bytes: &mut [u8], at: usize, byte: u8, count: usize)
    requires { at + count ≤ length bytes.old }
    ensures { bytes.new ≡ written at (replicate count byte) bytes.old }
{
    bytes[at..at + count].fill(byte);
}
