//! Rows of `list`, `kept` and `slice`, and traces of slices.

use crate::modules::{ADD, HOST, PRINT, RECURSIVE, RETURNING, SLICED};
use crate::row::{Row, end_of, first_wrong, gives};
use std::test::Fail;

// A function that calls itself in one arm of an if, one with an instruction after a return, and an imported one.
const LISTED: &[Row] = &[
    (
        "list 0",
        RECURSIVE,
        0,
        b"0 local.get 0\n1 if i32 <- 0\n2   local.get 0\n3   i32.const 1\n4   i32.sub <- 2 3\n5   call 0 <- 4\n. else <- 5\n6   i32.const 0\n. end <- 6\n7 i32.const 1\n8 i32.add <- j1 7\n. end <- 8\n",
        "",
    ),
    (
        "list 0",
        RETURNING,
        0,
        b"0 i32.const 1\n1 return <- 0\n2 i32.const 2 dead\n. end\n",
        "",
    ),
    (
        "list 0",
        b"\0asm\x01\0\0\0\x01\x04\x01\x60\x00\x00\x02\x07\x01\x01\x65\x01\x68\x00\x00",
        6,
        b"",
        "wassail: query refused: function 0 is imported\n",
    ),
    (
        "list 1",
        b"\0asm\x01\0\0\0\x01\x04\x01\x60\x00\x00\x02\x07\x01\x01\x65\x01\x68\x00\x00",
        6,
        b"",
        "wassail: query refused: no function 1\n",
    ),
];

#[test]
fn lists_functions(rt: HostRuntime) -> Result<(), Fail> {
    assert_eq!(rt; first_wrong(&rt, LISTED)?, None);
    Ok(())
}

// A mutable global, `(i32) -> i32`: `block; local.get 0; br_if 0; unreachable; end; global.get 0`.
const LEFT_BY_TRAP: &[u8] =
    b"\0asm\x01\0\0\0\x01\x06\x01\x60\x01\x7F\x01\x7F\x03\x02\x01\x00\x06\x06\x01\x7F\x01\x41\x00\x0B\x0A\x0E\x01\x0C\x00\x02\x40\x20\x00\x0D\x00\x00\x0B\x23\x00\x0B";

// With its slice at 4: `global.get 0`.
const LEFT_BY_TRAP_4: &[u8] =
    b"\0asm\x01\0\0\0\x01\x06\x01\x60\x01\x7F\x01\x7F\x03\x03\x02\x00\x00\x06\x06\x01\x7F\x01\x41\x00\x0B\x07\x05\x01\x01\x73\x00\x01\x0A\x13\x02\x0C\x00\x02\x40\x20\x00\x0D\x00\x00\x0B\x23\x00\x0B\x04\x00\x23\x00\x0B";

// With its slice at 1: `block; local.get 0; drop; end; i32.const 0`.
const LEFT_BY_TRAP_1: &[u8] =
    b"\0asm\x01\0\0\0\x01\x06\x01\x60\x01\x7F\x01\x7F\x03\x03\x02\x00\x00\x06\x06\x01\x7F\x01\x41\x00\x0B\x07\x05\x01\x01\x73\x00\x01\x0A\x19\x02\x0C\x00\x02\x40\x20\x00\x0D\x00\x00\x0B\x23\x00\x0B\x0A\x00\x02\x40\x20\x00\x1A\x0B\x41\x00\x0B";

// `(i32) -> ()`: `block; loop; local.get 0; i32.eqz; br_if 1; local.get 0; i32.const 1; i32.sub; local.set 0; nop; br 0; end; end`.
const LOOP: &[u8] =
    b"\0asm\x01\0\0\0\x01\x05\x01\x60\x01\x7F\x00\x03\x02\x01\x00\x0A\x19\x01\x17\x00\x02\x40\x03\x40\x20\x00\x45\x0D\x01\x20\x00\x41\x01\x6B\x21\x00\x01\x0C\x00\x0B\x0B\x0B";

// With its slice at 5: the same without the `nop`.
const LOOP_5: &[u8] =
    b"\0asm\x01\0\0\0\x01\x05\x01\x60\x01\x7F\x00\x03\x03\x02\x00\x00\x07\x05\x01\x01\x73\x00\x01\x0A\x30\x02\x17\x00\x02\x40\x03\x40\x20\x00\x45\x0D\x01\x20\x00\x41\x01\x6B\x21\x00\x01\x0C\x00\x0B\x0B\x0B\x16\x00\x02\x40\x03\x40\x20\x00\x45\x0D\x01\x20\x00\x41\x01\x6B\x21\x00\x0C\x00\x0B\x0B\x0B";

// `(i32) -> i32`, one i32 local: `i32.const 7; local.set 1; local.get 0; if; i32.const 9; local.set 1; end; local.get 1`.
const ARM: &[u8] =
    b"\0asm\x01\0\0\0\x01\x06\x01\x60\x01\x7F\x01\x7F\x03\x02\x01\x00\x0A\x15\x01\x13\x01\x01\x7F\x41\x07\x21\x01\x20\x00\x04\x40\x41\x09\x21\x01\x0B\x20\x01\x0B";

// A mutable global, `() -> i32`: `block i32; i32.const 3; global.set 0; i32.const 4; end; drop; i32.const 5`.
const BLOCK_VALUE: &[u8] =
    b"\0asm\x01\0\0\0\x01\x05\x01\x60\x00\x01\x7F\x03\x02\x01\x00\x06\x06\x01\x7F\x01\x41\x00\x0B\x0A\x10\x01\x0E\x00\x02\x7F\x41\x03\x24\x00\x41\x04\x0B\x1A\x41\x05\x0B";

// With its slice at 2: `block i32; i32.const 3; global.set 0; i32.const 0; end; drop; i32.const 0`.
const BLOCK_VALUE_2: &[u8] =
    b"\0asm\x01\0\0\0\x01\x05\x01\x60\x00\x01\x7F\x03\x03\x02\x00\x00\x06\x06\x01\x7F\x01\x41\x00\x0B\x07\x05\x01\x01\x73\x00\x01\x0A\x1F\x02\x0E\x00\x02\x7F\x41\x03\x24\x00\x41\x04\x0B\x1A\x41\x05\x0B\x0E\x00\x02\x7F\x41\x03\x24\x00\x41\x00\x0B\x1A\x41\x00\x0B";

// A mutable global, `(i32) -> i32`: `block i32; i32.const 7; local.get 0; br_if 0; global.get 0; i32.add; end`.
const CARRIED: &[u8] =
    b"\0asm\x01\0\0\0\x01\x06\x01\x60\x01\x7F\x01\x7F\x03\x02\x01\x00\x06\x06\x01\x7F\x01\x41\x00\x0B\x0A\x10\x01\x0E\x00\x02\x7F\x41\x07\x20\x00\x0D\x00\x23\x00\x6A\x0B\x0B";

// With its slice at 4: `block i32; i32.const 0; local.get 0; br_if 0; global.get 0; drop; drop; i32.const 0; end`.
const CARRIED_4: &[u8] =
    b"\0asm\x01\0\0\0\x01\x06\x01\x60\x01\x7F\x01\x7F\x03\x03\x02\x00\x00\x06\x06\x01\x7F\x01\x41\x00\x0B\x07\x05\x01\x01\x73\x00\x01\x0A\x22\x02\x0E\x00\x02\x7F\x41\x07\x20\x00\x0D\x00\x23\x00\x6A\x0B\x0B\x11\x00\x02\x7F\x41\x00\x20\x00\x0D\x00\x23\x00\x1A\x1A\x41\x00\x0B\x0B";

// `(i32) -> ()`, one i32 local: `block; loop; local.get 0; i32.eqz; br_if 1; block; loop; local.get 1; br_if 1; i32.const 1; local.set 1; br 0; end; end;
// local.get 0; i32.const 1; i32.sub; local.set 0; br 0; end; end`.
const LOOPS: &[u8] =
    b"\0asm\x01\0\0\0\x01\x05\x01\x60\x01\x7F\x00\x03\x02\x01\x00\x0A\x2A\x01\x28\x01\x01\x7F\x02\x40\x03\x40\x20\x00\x45\x0D\x01\x02\x40\x03\x40\x20\x01\x0D\x01\x41\x01\x21\x01\x0C\x00\x0B\x0B\x20\x00\x41\x01\x6B\x21\x00\x0C\x00\x0B\x0B\x0B";

// With its slice at 12, without the inner block.
const LOOPS_12: &[u8] =
    b"\0asm\x01\0\0\0\x01\x05\x01\x60\x01\x7F\x00\x03\x03\x02\x00\x00\x07\x05\x01\x01\x73\x00\x01\x0A\x43\x02\x28\x01\x01\x7F\x02\x40\x03\x40\x20\x00\x45\x0D\x01\x02\x40\x03\x40\x20\x01\x0D\x01\x41\x01\x21\x01\x0C\x00\x0B\x0B\x20\x00\x41\x01\x6B\x21\x00\x0C\x00\x0B\x0B\x0B\x18\x01\x01\x7F\x02\x40\x03\x40\x20\x00\x45\x0D\x01\x20\x00\x41\x01\x6B\x21\x00\x0C\x00\x0B\x0B\x0B";

// The same with `br_if 3` in place of the second `br_if 1`.
const LOOPS_OUT: &[u8] =
    b"\0asm\x01\0\0\0\x01\x05\x01\x60\x01\x7F\x00\x03\x02\x01\x00\x0A\x2A\x01\x28\x01\x01\x7F\x02\x40\x03\x40\x20\x00\x45\x0D\x01\x02\x40\x03\x40\x20\x01\x0D\x03\x41\x01\x21\x01\x0C\x00\x0B\x0B\x20\x00\x41\x01\x6B\x21\x00\x0C\x00\x0B\x0B\x0B";

// With its slice at 12, which is the whole body.
const LOOPS_OUT_12: &[u8] =
    b"\0asm\x01\0\0\0\x01\x05\x01\x60\x01\x7F\x00\x03\x03\x02\x00\x00\x07\x05\x01\x01\x73\x00\x01\x0A\x53\x02\x28\x01\x01\x7F\x02\x40\x03\x40\x20\x00\x45\x0D\x01\x02\x40\x03\x40\x20\x01\x0D\x03\x41\x01\x21\x01\x0C\x00\x0B\x0B\x20\x00\x41\x01\x6B\x21\x00\x0C\x00\x0B\x0B\x0B\x28\x01\x01\x7F\x02\x40\x03\x40\x20\x00\x45\x0D\x01\x02\x40\x03\x40\x20\x01\x0D\x03\x41\x01\x21\x01\x0C\x00\x0B\x0B\x20\x00\x41\x01\x6B\x21\x00\x0C\x00\x0B\x0B\x0B";

// With the slice of RECURSIVE at 8, which is the whole body: it calls function 0.
const RECURSIVE_8: &[u8] =
    b"\0asm\x01\0\0\0\x01\x06\x01\x60\x01\x7F\x01\x7F\x03\x03\x02\x00\x00\x07\x05\x01\x01\x73\x00\x01\x0A\x2B\x02\x14\x00\x20\x00\x04\x7F\x20\x00\x41\x01\x6B\x10\x00\x05\x41\x00\x0B\x41\x01\x6A\x0B\x14\x00\x20\x00\x04\x7F\x20\x00\x41\x01\x6B\x10\x00\x05\x41\x00\x0B\x41\x01\x6A\x0B";

// Function 0 `(i32 i32) -> i32`: `local.get 0`; function 1 `(i32) -> i32`: `local.get 0; i32.const 6; i32.const 7; i32.mul; call 0; i32.const 1; i32.add`.
const FEW_ARGUMENTS: &[u8] =
    b"\0asm\x01\0\0\0\x01\x0C\x02\x60\x02\x7F\x7F\x01\x7F\x60\x01\x7F\x01\x7F\x03\x03\x02\x00\x01\x0A\x15\x02\x04\x00\x20\x00\x0B\x0E\x00\x20\x00\x41\x06\x41\x07\x6C\x10\x00\x41\x01\x6A\x0B";

// With the slice of function 1 at 6: `local.get 0; i32.const 0; call 0; i32.const 1; i32.add`.
const FEW_ARGUMENTS_6: &[u8] =
    b"\0asm\x01\0\0\0\x01\x0C\x02\x60\x02\x7F\x7F\x01\x7F\x60\x01\x7F\x01\x7F\x03\x04\x03\x00\x01\x01\x07\x05\x01\x01\x73\x00\x02\x0A\x21\x03\x04\x00\x20\x00\x0B\x0E\x00\x20\x00\x41\x06\x41\x07\x6C\x10\x00\x41\x01\x6A\x0B\x0B\x00\x20\x00\x41\x00\x10\x00\x41\x01\x6A\x0B";

// The same with `local.get 0; local.get 1; i32.div_u; drop; local.get 0` as function 0.
const MAY_TRAP: &[u8] =
    b"\0asm\x01\0\0\0\x01\x0C\x02\x60\x02\x7F\x7F\x01\x7F\x60\x01\x7F\x01\x7F\x03\x03\x02\x00\x01\x0A\x1B\x02\x0A\x00\x20\x00\x20\x01\x6E\x1A\x20\x00\x0B\x0E\x00\x20\x00\x41\x06\x41\x07\x6C\x10\x00\x41\x01\x6A\x0B";

// A mutable global; function 0 `() -> i32`: `i32.const 3; global.set 0; i32.const 4`; function 1 `() -> i32`: `call 0; drop; global.get 0`.
const WRITES: &[u8] =
    b"\0asm\x01\0\0\0\x01\x05\x01\x60\x00\x01\x7F\x03\x03\x02\x00\x00\x06\x06\x01\x7F\x01\x41\x00\x0B\x0A\x12\x02\x08\x00\x41\x03\x24\x00\x41\x04\x0B\x07\x00\x10\x00\x1A\x23\x00\x0B";

// With the slice of function 1 at 2: `call 0; drop; global.get 0`.
const WRITES_2: &[u8] =
    b"\0asm\x01\0\0\0\x01\x05\x01\x60\x00\x01\x7F\x03\x04\x03\x00\x00\x00\x06\x06\x01\x7F\x01\x41\x00\x0B\x07\x05\x01\x01\x73\x00\x02\x0A\x1A\x03\x08\x00\x41\x03\x24\x00\x41\x04\x0B\x07\x00\x10\x00\x1A\x23\x00\x0B\x07\x00\x10\x00\x1A\x23\x00\x0B";

// Function 0 `() -> i32`: `i32.const 42`; function 1 `(i32) -> i32`: `local.get 0; call_indirect 0`; a table of 3 with functions 0 and 1 at 0.
const THROUGH: &[u8] =
    b"\0asm\x01\0\0\0\x01\x0A\x02\x60\x00\x01\x7F\x60\x01\x7F\x01\x7F\x03\x03\x02\x00\x01\x04\x04\x01\x70\x00\x03\x09\x08\x01\x00\x41\x00\x0B\x02\x00\x01\x0A\x0E\x02\x04\x00\x41\x2A\x0B\x07\x00\x20\x00\x11\x00\x00\x0B";

// With the slice of function 1 at 1.
const THROUGH_1: &[u8] =
    b"\0asm\x01\0\0\0\x01\x0A\x02\x60\x00\x01\x7F\x60\x01\x7F\x01\x7F\x03\x04\x03\x00\x01\x01\x04\x04\x01\x70\x00\x03\x07\x05\x01\x01\x73\x00\x02\x09\x08\x01\x00\x41\x00\x0B\x02\x00\x01\x0A\x16\x03\x04\x00\x41\x2A\x0B\x07\x00\x20\x00\x11\x00\x00\x0B\x07\x00\x20\x00\x11\x00\x00\x0B";

// HOST with the memory exported as `m`.
const HOST_SEES: &[u8] =
    b"\0asm\x01\0\0\0\x01\x05\x01\x60\x00\x01\x7F\x02\x09\x01\x03\x65\x6E\x76\x01\x68\x00\x00\x03\x02\x01\x00\x05\x03\x01\x00\x01\x07\x05\x01\x01\x6D\x02\x00\x0A\x0D\x01\x0B\x00\x41\x00\x41\x05\x36\x02\x00\x10\x00\x0B";

const KEPT: &[Row] = &[
    ("kept 0 0", ADD, 0, b"0\n", ""),
    ("kept 0 4", LEFT_BY_TRAP, 0, b"4\n", ""),
    ("kept 0 1", LEFT_BY_TRAP, 0, b"0\n1\n", ""),
    ("kept 0 5", LOOP, 0, b"0\n1\n2\n3\n4\n5\n6\n7\n8\n10\n", ""),
    ("kept 0 6", ARM, 0, b"0\n1\n2\n3\n4\n5\n6\n", ""),
    ("kept 0 2", BLOCK_VALUE, 0, b"0\n1\n2\n", ""),
    ("kept 0 4", CARRIED, 0, b"0\n2\n3\n4\n", ""),
    (
        "kept 0 12",
        LOOPS,
        0,
        b"0\n1\n2\n3\n4\n12\n13\n14\n15\n16\n",
        "",
    ),
    (
        "kept 0 12",
        LOOPS_OUT,
        0,
        b"0\n1\n2\n3\n4\n5\n6\n7\n8\n9\n10\n11\n12\n13\n14\n15\n16\n",
        "",
    ),
    (
        "kept 0 8",
        RECURSIVE,
        0,
        b"0\n1\nj1\n2\n3\n4\n5\n6\n7\n8\n",
        "",
    ),
    ("kept 1 6", FEW_ARGUMENTS, 0, b"0\n4\n5\n6\n", ""),
    ("kept 1 6", MAY_TRAP, 0, b"0\n1\n2\n3\n4\n5\n6\n", ""),
    ("kept 1 2", WRITES, 0, b"0\n2\n", ""),
    ("kept 1 1", THROUGH, 0, b"0\n1\n", ""),
    // What the host doesn't see isn't kept for it.
    ("kept 1 3", HOST, 0, b"3\n", ""),
    ("kept 1 3", HOST_SEES, 0, b"0\n1\n2\n3\n", ""),
    (
        "kept 0 2",
        RETURNING,
        6,
        b"",
        "wassail: query refused: instruction 2 is dead\n",
    ),
    (
        "kept 0 3",
        ADD,
        6,
        b"",
        "wassail: query refused: no instruction 3, function has 3\n",
    ),
];

#[test]
fn tells_what_a_position_depends_on(rt: HostRuntime) -> Result<(), Fail> {
    assert_eq!(rt; first_wrong(&rt, KEPT)?, None);
    Ok(())
}

// One function `() -> ()` with 8,192 locals, that sets them in turn, 49,999 times, each to 1, and then reads the first: 100,000 positions.
fn many_sets(rt: &HostRuntime) -> Result<Vec<u8>, Fail> {
    let mut bytes =
        b"\0asm\x01\0\0\0\x01\x04\x01\x60\x00\x00\x03\x02\x01\x00\x0A\x97\xA1\x0F\x01\x93\xA1\x0F\x01\x80\x40\x7F".to_vec(
            rt.alloc(),
        )?;
    for set in 0..49999u32 {
        let local = set % 8192;
        bytes.extend_from_slice(b"\x41\x01\x21")?;
        bytes.push((local % 128 + 128) as u8)?;
        bytes.push((local / 128) as u8)?;
    }
    bytes.extend_from_slice(b"\x20\x00\x1A\x0B")?;
    Ok(bytes)
}

#[test]
fn tells_what_the_last_of_many_positions_depends_on(rt: HostRuntime) -> Result<(), Fail> {
    let bytes = many_sets(&rt)?;
    assert!(rt; gives(&rt, "kept 0 99998", &bytes, 0, b"98304\n98305\n99998\n", "")?);
    Ok(())
}

const SLICES: &[Row] = &[
    ("slice 0 0 s", ADD, 0, SLICED, "function 1 instruction 0\n"),
    (
        "slice 0 4 s",
        LEFT_BY_TRAP,
        0,
        LEFT_BY_TRAP_4,
        "function 1 instruction 0\n",
    ),
    (
        "slice 0 1 s",
        LEFT_BY_TRAP,
        0,
        LEFT_BY_TRAP_1,
        "function 1 instruction 1\n",
    ),
    ("slice 0 5 s", LOOP, 0, LOOP_5, "function 1 instruction 5\n"),
    (
        "slice 0 2 s",
        BLOCK_VALUE,
        0,
        BLOCK_VALUE_2,
        "function 1 instruction 2\n",
    ),
    (
        "slice 0 4 s",
        CARRIED,
        0,
        CARRIED_4,
        "function 1 instruction 4\n",
    ),
    (
        "slice 0 12 s",
        LOOPS,
        0,
        LOOPS_12,
        "function 1 instruction 5\n",
    ),
    (
        "slice 0 12 s",
        LOOPS_OUT,
        0,
        LOOPS_OUT_12,
        "function 1 instruction 12\n",
    ),
    (
        "slice 0 8 s",
        RECURSIVE,
        0,
        RECURSIVE_8,
        "function 1 instruction 8\n",
    ),
    (
        "slice 1 6 s",
        FEW_ARGUMENTS,
        0,
        FEW_ARGUMENTS_6,
        "function 2 instruction 4\n",
    ),
    (
        "slice 1 2 s",
        WRITES,
        0,
        WRITES_2,
        "function 2 instruction 2\n",
    ),
    (
        "slice 1 1 s",
        THROUGH,
        0,
        THROUGH_1,
        "function 2 instruction 1\n",
    ),
];

#[test]
fn slices_functions(rt: HostRuntime) -> Result<(), Fail> {
    assert_eq!(rt; first_wrong(&rt, SLICES)?, None);
    Ok(())
}

const NOT_SLICED: &[Row] = &[
    (
        "slice 0 9 s",
        ADD,
        6,
        b"",
        "wassail: query refused: no instruction 9, function has 3\n",
    ),
    (
        "slice 1 0 s",
        ADD,
        6,
        b"",
        "wassail: query refused: no function 1\n",
    ),
    (
        "slice 0 0 s",
        HOST,
        6,
        b"",
        "wassail: query refused: function 0 is imported\n",
    ),
    (
        "slice 0 2 s",
        RETURNING,
        6,
        b"",
        "wassail: query refused: instruction 2 is dead\n",
    ),
    (
        "slice 0 0 s",
        SLICED,
        6,
        b"",
        "wassail: query refused: export name taken\n",
    ),
];

#[test]
fn refuses_what_is_not_there_to_slice(rt: HostRuntime) -> Result<(), Fail> {
    assert_eq!(rt; first_wrong(&rt, NOT_SLICED)?, None);
    Ok(())
}

const TRACED: &[Row] = &[
    (
        "trace 0 12 100 2",
        LOOPS,
        0,
        b"take\nleave 2\ntake\nleave 1\nreturned\nturns 3\n",
        "",
    ),
    (
        "trace 1 5 100 2",
        LOOPS_12,
        0,
        b"take\nleave 2\ntake\nleave 1\nreturned\nturns 2\n",
        "",
    ),
    ("trace 0 12 100 2", LOOPS_OUT, 0, b"returned\nturns 1\n", ""),
    (
        "trace 0 8 10 3",
        RECURSIVE,
        0,
        b"take 3 1\nleave 4\nreturned 4\nturns 3\n",
        "",
    ),
    (
        "trace 1 8 10 3",
        RECURSIVE_8,
        0,
        b"take 3 1\nleave 4\nreturned 4\nturns 3\n",
        "",
    ),
];

#[test]
fn traces_functions_and_slices(rt: HostRuntime) -> Result<(), Fail> {
    assert_eq!(rt; first_wrong(&rt, TRACED)?, None);
    Ok(())
}

// The slice at the load of the function that counts bytes passes it as often, and with the same values.
#[test]
fn traces_a_slice(rt: HostRuntime) -> Result<(), Fail> {
    let got = end_of(&rt, "slice 1 5 s", PRINT)?;
    let seen =
        b"take 1024\nleave 104\ntake 1025\nleave 105\ntake 1026\nleave 0\nreturned 0\nturns 2\n";
    assert!(rt; gives(&rt, "trace 3 5 100 1024", &got.out, 0, seen, "")?);
    Ok(())
}
