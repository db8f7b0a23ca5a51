//! Bytes at a place in a buffer that has room for them. What comes out is the place behind them.

ghost use Rattle.std.specs.Prelude.{◌≡◌, ◌+◌, ◌*◌, ◌<◌, ◌≤◌, ◌∷◌, [], decimal, length, replicate, take};
ghost use Rattle.std.specs.Fmt.{signed_decimal};
ghost use Rattle.report_text.specs.Listing.{indent};
ghost use Rattle.report_text.specs.Placed.{Placed};

use itoa::write_digits;
use std::simd::Simd;

/// The most digits of a number below 2^32.
pub(crate) const MOST_DIGITS: usize = 10;

/// One byte.
#[inline(always)]
pub(crate) fn place_byte(buf: &mut [u8], at: usize, byte: u8) -> usize
    requires { at < length buf.old }
    ensures { Placed buf.old buf.new at (byte ∷ []) result }
{
    buf[at] = byte;
    at + 1
}

/// So many spaces. None takes no call.
#[inline(always)]
pub(crate) fn place_spaces(buf: &mut [u8], at: usize, count: usize) -> usize
    requires { at + count ≤ length buf.old }
    ensures { Placed buf.old buf.new at (replicate count 32) result }
{
    if count == 0 {
        return at;
    }
    let end = at + count;
    buf[at..end].fill(b' ');
    end
}

/// Two spaces for each block around.
#[inline(always)]
pub(crate) fn place_indent(buf: &mut [u8], at: usize, depth: usize) -> usize
    requires { at + 2 * depth ≤ length buf.old }
    ensures { Placed buf.old buf.new at (indent depth) result }
{
    place_spaces(buf, at, 2 * depth)
}

/// The first N bytes of a text: one load and one store.
#[inline(always)]
pub(crate) fn place_front<const N: usize>(buf: &mut [u8], at: usize, text: &[u8]) -> usize
    requires long { N ≤ length text.now }
    requires room { at + N ≤ length buf.old }
    ensures { Placed buf.old buf.new at (take N text.now) result }
{
    Simd::<u8, N>::from_slice(text).copy_to_slice(&mut buf[at..]);
    at + N
}

/// A text of N to 2 N bytes: its first N and its last N bytes, which may overlap.
#[inline(always)]
fn place_ends<const N: usize>(buf: &mut [u8], at: usize, text: &[u8]) -> usize
    requires room { at + length text.now ≤ length buf.old }
    requires long { N ≤ length text.now }
    requires short { length text.now ≤ N + N }
    ensures { Placed buf.old buf.new at text.now result }
{
    let last = text.len() - N;
    place_front::<N>(buf, at, text);
    place_front::<N>(buf, at + last, &text[last..])
}

/// A text. A short one takes no call.
#[inline(always)]
pub(crate) fn place_text(buf: &mut [u8], at: usize, text: &[u8]) -> usize
    requires { at + length text.now ≤ length buf.old }
    ensures { Placed buf.old buf.new at text.now result }
{
    let long = text.len();
    if long > 16 {
        let end = at + long;
        buf[at..end].copy_from_slice(text);
        end
    } else if long >= 8 {
        place_ends::<8>(buf, at, text)
    } else if long >= 4 {
        place_ends::<4>(buf, at, text)
    } else if long >= 2 {
        place_ends::<2>(buf, at, text)
    } else if long == 1 {
        place_front::<1>(buf, at, text)
    } else {
        at
    }
}

/// How many digits a number below 100,000 has.
#[inline(always)]
fn few_digits(number: u64) -> usize
    requires { number < 100000 }
    ensures { result ≡ length (decimal number) }
{
    if number < 10 {
        1
    } else if number < 100 {
        2
    } else if number < 1_000 {
        3
    } else if number < 10_000 {
        4
    } else {
        5
    }
}

/// How many digits a number has.
#[inline(always)]
fn digit_count(number: u64) -> usize
    ensures exact { result ≡ length (decimal number) }
    ensures few { result ≤ 20 }
{
    let mut left = number;
    let mut count = 0;
    while left >= 100_000 {
        left /= 100_000;
        count += 5;
    }
    count + few_digits(left)
}

/// The digits of a number, as many as it has.
#[inline(always)]
fn place_digits(buf: &mut [u8], at: usize, number: u64) -> usize
    requires { at + length (decimal number) ≤ length buf.old }
    ensures { Placed buf.old buf.new at (decimal number) result }
{
    if number < 10 {
        return place_byte(buf, at, b'0' + number as u8);
    }
    let end = at + digit_count(number);
    let _start = write_digits(number, buf, end);
    end
}

/// A number.
#[inline(always)]
pub(crate) fn place_number(buf: &mut [u8], at: usize, number: u32) -> usize
    requires { at + 10 ≤ length buf.old }
    ensures placed { Placed buf.old buf.new at (decimal number) result }
    ensures short { result ≤ at + 10 }
{
    place_digits(buf, at, u64::from(number))
}

/// A number with its sign, where it is below zero.
pub(crate) fn place_signed(buf: &mut [u8], at: usize, number: i64) -> usize
    requires { at + 20 ≤ length buf.old }
    ensures placed { Placed buf.old buf.new at (signed_decimal number) result }
    ensures short { result ≤ at + 20 }
{
    let size = number.unsigned_abs();
    if number >= 0 {
        return place_digits(buf, at, size);
    }
    let behind = place_byte(buf, at, b'-');
    place_digits(buf, behind, size)
}
