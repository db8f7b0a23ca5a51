//! Rows of `summary`.

use crate::modules::PRINT;
use crate::row::{Row, first_wrong};
use std::test::Fail;

// A mutable global, `(i32) -> ()`: `local.get 0; if; i32.const 1; global.set 0; end`.
const SET_IN_ARM: &[u8] =
    b"\0asm\x01\0\0\0\x01\x05\x01\x60\x01\x7F\x00\x03\x02\x01\x00\x06\x06\x01\x7F\x01\x41\x00\x0B\x0A\x0D\x01\x0B\x00\x20\x00\x04\x40\x41\x01\x24\x00\x0B\x0B";

// An immutable global, and two functions `(i32 i32 i32) -> i32` that call each other with their parameters turned round:
// `global.get 0; if i32; local.get 1; local.get 2; local.get 0; call 1; else; local.get 0; end` and
// `global.get 0; if i32; local.get 0; local.get 1; local.get 2; call 0; else; i32.const 0; end`.
const TURNED_ROUND: &[u8] =
    b"\0asm\x01\0\0\0\x01\x08\x01\x60\x03\x7F\x7F\x7F\x01\x7F\x03\x03\x02\x00\x00\x06\x06\x01\x7F\x00\x41\x00\x0B\x0A\x27\x02\x12\x00\x23\x00\x04\x7F\x20\x01\x20\x02\x20\x00\x10\x01\x05\x20\x00\x0B\x0B\x12\x00\x23\x00\x04\x7F\x20\x00\x20\x01\x20\x02\x10\x00\x05\x41\x00\x0B\x0B";

// `(i32 i32) -> i32`: `local.get 0; local.get 1; i32.div_u; drop; local.get 0`.
const UNUSED_QUOTIENT: &[u8] =
    b"\0asm\x01\0\0\0\x01\x07\x01\x60\x02\x7F\x7F\x01\x7F\x03\x02\x01\x00\x0A\x0C\x01\x0A\x00\x20\x00\x20\x01\x6E\x1A\x20\x00\x0B";

const OF_THE_HOST: &[u8] =
    b"f 0 result <- p0 p1 mem size host\nf 0 g0 <- g0\nf 0 mem <- p0 p1 mem size host\nf 0 size <- size\nf 0 host <- p0 p1 mem size host\nf 0 done <- p0 p1 mem size host\n";

const OF_ALL: &[u8] =
    b"f 0 result <- p0 p1 mem size host\nf 0 g0 <- g0\nf 0 mem <- p0 p1 mem size host\nf 0 size <- size\nf 0 host <- p0 p1 mem size host\nf 0 done <- p0 p1 mem size host\nf 1 result <- p0 mem\nf 1 g0 <- g0\nf 1 mem <- mem\nf 1 size <- size\nf 1 host <- host\nf 1 done <- p0 mem size\nf 2 result <- p0 mem\nf 2 g0 <- g0\nf 2 mem <- p0 g0 mem size host\nf 2 size <- size\nf 2 host <- p0 g0 mem size host\nf 2 done <- p0 g0 mem size host\n";

// A branch that decides whether a global is set; rows that grow for some rounds; a trap of an unused quotient; an imported function, and functions that call it.
const SUMMARIES: &[Row] = &[
    (
        "summary",
        SET_IN_ARM,
        0,
        b"f 0 g0 <- p0 g0\nf 0 done <-\n",
        "",
    ),
    (
        "summary",
        TURNED_ROUND,
        0,
        b"f 0 result <- p0 p1 p2 g0\nf 0 done <- g0\nf 1 result <- p0 p1 p2 g0\nf 1 done <- g0\n",
        "",
    ),
    (
        "summary 1",
        TURNED_ROUND,
        0,
        b"f 1 result <- p0 p1 p2 g0\nf 1 done <- g0\n",
        "",
    ),
    (
        "summary 0",
        UNUSED_QUOTIENT,
        0,
        b"f 0 result <- p0\nf 0 done <- p0 p1\n",
        "",
    ),
    ("summary", PRINT, 0, OF_ALL, ""),
    ("summary 0", PRINT, 0, OF_THE_HOST, ""),
    (
        "summary 9",
        PRINT,
        6,
        b"",
        "wassail: query refused: no function 9\n",
    ),
];

#[test]
fn tells_what_outputs_depend_on(rt: HostRuntime) -> Result<(), Fail> {
    assert_eq!(rt; first_wrong(&rt, SUMMARIES)?, None);
    Ok(())
}
