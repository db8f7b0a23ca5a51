//! Rows of `run` and `trace`.

use crate::modules::{HOST, PRINT, RECURSIVE, RETURNING};
use crate::row::{Row, first_wrong};
use std::test::Fail;

// Two functions `(i32 i32) -> i32`: `local.get 0; local.get 1; i32.div_s`, and the same with `i32.rem_s`.
const DIVIDE: &[u8] =
    b"\0asm\x01\0\0\0\x01\x07\x01\x60\x02\x7F\x7F\x01\x7F\x03\x03\x02\x00\x00\x0A\x11\x02\x07\x00\x20\x00\x20\x01\x6D\x0B\x07\x00\x20\x00\x20\x01\x6F\x0B";

// One page, and three functions `(i32) -> i32`: `local.get 0; i32.load8_u 0 0`, `local.get 0; i32.load16_u 0 0` and `local.get 0; i32.load8_u 0 1`.
const BOUNDS: &[u8] =
    b"\0asm\x01\0\0\0\x01\x06\x01\x60\x01\x7F\x01\x7F\x03\x04\x03\x00\x00\x00\x05\x03\x01\x00\x01\x0A\x19\x03\x07\x00\x20\x00\x2D\x00\x00\x0B\x07\x00\x20\x00\x2F\x00\x00\x0B\x07\x00\x20\x00\x2D\x00\x01\x0B";

// `(i32) -> i32`: `local.get 0; i32.extend8_s`, and `(i64) -> i64`: `local.get 0; i64.extend32_s`.
const EXTEND: &[u8] =
    b"\0asm\x01\0\0\0\x01\x0B\x02\x60\x01\x7F\x01\x7F\x60\x01\x7E\x01\x7E\x03\x03\x02\x00\x01\x0A\x0D\x02\x05\x00\x20\x00\xC0\x0B\x05\x00\x20\x00\xC4\x0B";

// One page. `(i32 i32 i32) -> i32`: `i32.const 0; i32.const 258; i32.store 2 0; local.get 0; local.get 1; local.get 2; memory.copy; local.get 0; i32.load 2 0`.
// `(i32 i32) -> ()`: `local.get 0; i32.const 263; local.get 1; memory.fill`.
// `() -> i32`: `i32.const 0; i32.const 263; i32.const 4; memory.fill; i32.const 0; i32.load8_u 0 0`.
const COPY: &[u8] =
    b"\0asm\x01\0\0\0\x01\x11\x03\x60\x03\x7F\x7F\x7F\x01\x7F\x60\x02\x7F\x7F\x00\x60\x00\x01\x7F\x03\x04\x03\x00\x01\x02\x05\x03\x01\x00\x01\x0A\x3A\x03\x19\x00\x41\x00\x41\x82\x02\x36\x02\x00\x20\x00\x20\x01\x20\x02\xFC\x0A\x00\x00\x20\x00\x28\x02\x00\x0B\x0C\x00\x20\x00\x41\x87\x02\x20\x01\xFC\x0B\x00\x0B\x11\x00\x41\x00\x41\x87\x02\x41\x04\xFC\x0B\x00\x41\x00\x2D\x00\x00\x0B";

const ARITHMETIC: &[Row] = &[
    (
        "run 0 0 -2147483648 -1",
        DIVIDE,
        7,
        b"trapped integer overflow\nturns 0\n",
        "",
    ),
    (
        "run 0 0 7 0",
        DIVIDE,
        7,
        b"trapped divide by zero\nturns 0\n",
        "",
    ),
    (
        "run 0 0 -7 2",
        DIVIDE,
        0,
        b"returned 4294967293\nturns 0\n",
        "",
    ),
    (
        "run 1 0 -2147483648 -1",
        DIVIDE,
        0,
        b"returned 0\nturns 0\n",
        "",
    ),
    ("run 0 0 65535", BOUNDS, 0, b"returned 0\nturns 0\n", ""),
    (
        "run 1 0 65535",
        BOUNDS,
        7,
        b"trapped memory out of bounds\nturns 0\n",
        "",
    ),
    (
        "run 2 0 4294967295",
        BOUNDS,
        7,
        b"trapped memory out of bounds\nturns 0\n",
        "",
    ),
    (
        "run 0 0 128",
        EXTEND,
        0,
        b"returned 4294967168\nturns 0\n",
        "",
    ),
    ("run 0 0 127", EXTEND, 0, b"returned 127\nturns 0\n", ""),
    (
        "run 1 0 2147483648",
        EXTEND,
        0,
        b"returned 18446744071562067968\nturns 0\n",
        "",
    ),
    ("run 0 0 1 0 4", COPY, 0, b"returned 258\nturns 0\n", ""),
    ("run 1 0 65536 0", COPY, 0, b"returned\nturns 0\n", ""),
    ("run 1 0 65535 1", COPY, 0, b"returned\nturns 0\n", ""),
    (
        "run 1 0 65536 1",
        COPY,
        7,
        b"trapped memory out of bounds\nturns 0\n",
        "",
    ),
    ("run 2 0", COPY, 0, b"returned 7\nturns 0\n", ""),
    (
        "run 2 0 1",
        COPY,
        6,
        b"",
        "wassail: query refused: arguments do not fit\n",
    ),
    (
        "run 0 0 4294967296 1",
        DIVIDE,
        6,
        b"",
        "wassail: query refused: arguments do not fit\n",
    ),
];

#[test]
fn runs_arithmetic_and_memory(rt: HostRuntime) -> Result<(), Fail> {
    assert_eq!(rt; first_wrong(&rt, ARITHMETIC)?, None);
    Ok(())
}

// `() -> ()`: `call 0`.
const DEEP: &[u8] =
    b"\0asm\x01\0\0\0\x01\x04\x01\x60\x00\x00\x03\x02\x01\x00\x0A\x06\x01\x04\x00\x10\x00\x0B";

// Functions `() -> i32` with `i32.const 42`, and `(i32) -> i32` with `local.get 0; call_indirect 0`; a table of 3, and both functions in it from 0 on.
const INDIRECT: &[u8] =
    b"\0asm\x01\0\0\0\x01\x0A\x02\x60\x00\x01\x7F\x60\x01\x7F\x01\x7F\x03\x03\x02\x00\x01\x04\x04\x01\x70\x00\x03\x09\x08\x01\x00\x41\x00\x0B\x02\x00\x01\x0A\x0E\x02\x04\x00\x41\x2A\x0B\x07\x00\x20\x00\x11\x00\x00\x0B";

// The same with both functions in the table from 2 on.
const TOO_FAR: &[u8] =
    b"\0asm\x01\0\0\0\x01\x0A\x02\x60\x00\x01\x7F\x60\x01\x7F\x01\x7F\x03\x03\x02\x00\x01\x04\x04\x01\x70\x00\x03\x09\x08\x01\x00\x41\x02\x0B\x02\x00\x01\x0A\x0E\x02\x04\x00\x41\x2A\x0B\x07\x00\x20\x00\x11\x00\x00\x0B";

// Two functions `() -> ()`: `unreachable`, which is the start function, and one that does nothing.
const TRAPPING_START: &[u8] =
    b"\0asm\x01\0\0\0\x01\x04\x01\x60\x00\x00\x03\x03\x02\x00\x00\x08\x01\x00\x0A\x08\x02\x03\x00\x00\x0B\x02\x00\x0B";

// The same with `loop; br 0; end` as the start function.
const ENDLESS_START: &[u8] =
    b"\0asm\x01\0\0\0\x01\x04\x01\x60\x00\x00\x03\x03\x02\x00\x00\x08\x01\x00\x0A\x0C\x02\x07\x00\x03\x40\x0C\x00\x0B\x0B\x02\x00\x0B";

const CALLS: &[Row] = &[
    (
        "trace 0 8 10 3",
        RECURSIVE,
        0,
        b"take 3 1\nleave 4\nreturned 4\nturns 3\n",
        "",
    ),
    ("run 0 2 3", RECURSIVE, 8, b"out of turns\n", ""),
    ("run 0 3 3", RECURSIVE, 0, b"returned 4\nturns 3\n", ""),
    (
        "trace 0 9 10 3",
        RECURSIVE,
        6,
        b"",
        "wassail: query refused: no instruction 9, function has 9\n",
    ),
    ("run 0 100000", DEEP, 8, b"out of turns\n", ""),
    ("run 1 5 0", INDIRECT, 0, b"returned 42\nturns 1\n", ""),
    (
        "run 1 5 1",
        INDIRECT,
        7,
        b"trapped wrong function type\nturns 0\n",
        "",
    ),
    (
        "run 1 5 2",
        INDIRECT,
        7,
        b"trapped empty table entry\nturns 0\n",
        "",
    ),
    (
        "run 1 5 3",
        INDIRECT,
        7,
        b"trapped no table entry\nturns 0\n",
        "",
    ),
    ("run 1 0 0", INDIRECT, 8, b"out of turns\n", ""),
    (
        "run 1 5 0",
        TOO_FAR,
        7,
        b"element segment 0 does not fit\n",
        "",
    ),
    (
        "run 1 5",
        TRAPPING_START,
        7,
        b"start trapped unreachable\nturns 0\n",
        "",
    ),
    ("run 1 5", ENDLESS_START, 8, b"out of turns\n", ""),
    (
        "trace 0 2 5",
        RETURNING,
        6,
        b"",
        "wassail: query refused: instruction 2 is dead\n",
    ),
    ("run 0 0 /", RETURNING, 0, b"returned 1\nturns 0\n", ""),
    (
        "run 1 0",
        RETURNING,
        6,
        b"",
        "wassail: query refused: no function 1\n",
    ),
];

#[test]
fn runs_calls(rt: HostRuntime) -> Result<(), Fail> {
    assert_eq!(rt; first_wrong(&rt, CALLS)?, None);
    Ok(())
}

// 1 to 3 pages, `(i32) -> i32`: `local.get 0; memory.grow`.
const GROW: &[u8] =
    b"\0asm\x01\0\0\0\x01\x06\x01\x60\x01\x7F\x01\x7F\x03\x02\x01\x00\x05\x04\x01\x01\x01\x03\x0A\x08\x01\x06\x00\x20\x00\x40\x00\x0B";

// The same with 1025 pages and no maximum.
const LARGE: &[u8] =
    b"\0asm\x01\0\0\0\x01\x06\x01\x60\x01\x7F\x01\x7F\x03\x02\x01\x00\x05\x04\x01\x00\x81\x08\x0A\x08\x01\x06\x00\x20\x00\x40\x00\x0B";

// The import `env` `g`, an immutable i64, and `() -> i64`: `global.get 0`.
const ZERO: &[u8] =
    b"\0asm\x01\0\0\0\x01\x05\x01\x60\x00\x01\x7E\x02\x0A\x01\x03\x65\x6E\x76\x01\x67\x03\x7E\x00\x03\x02\x01\x00\x0A\x06\x01\x04\x00\x23\x00\x0B";

const HOSTED: &[Row] = &[
    ("run 1 1 / 9", HOST, 0, b"returned 9\nturns 1\n", ""),
    (
        "run 1 1",
        HOST,
        7,
        b"trapped host reply missing\nturns 1\n",
        "",
    ),
    (
        "run 1 1 / -",
        HOST,
        7,
        b"trapped host reply unfit\nturns 1\n",
        "",
    ),
    (
        "run 0 1",
        HOST,
        6,
        b"",
        "wassail: query refused: function 0 is imported\n",
    ),
    ("run 2 100 1024 / 2", PRINT, 0, b"returned 2\nturns 4\n", ""),
    (
        "run 2 100 1024 / 2,m1024=00",
        PRINT,
        0,
        b"returned 2\nturns 4\n",
        "",
    ),
    (
        "trace 1 5 100 1024",
        PRINT,
        0,
        b"take 1024\nleave 104\ntake 1025\nleave 105\ntake 1026\nleave 0\nreturned 2\nturns 2\n",
        "",
    ),
    ("run 0 0 2", GROW, 0, b"returned 1\nturns 0\n", ""),
    ("run 0 0 3", GROW, 0, b"returned 4294967295\nturns 0\n", ""),
    (
        "run 0 0 2",
        LARGE,
        6,
        b"",
        "wassail: query refused: memory of 1025 pages is over 1024\n",
    ),
    ("run 0 0", ZERO, 0, b"returned 0\nturns 0\n", ""),
    (
        "run 0 0 1",
        ZERO,
        6,
        b"",
        "wassail: query refused: arguments do not fit\n",
    ),
];

#[test]
fn runs_with_a_host(rt: HostRuntime) -> Result<(), Fail> {
    assert_eq!(rt; first_wrong(&rt, HOSTED)?, None);
    Ok(())
}
