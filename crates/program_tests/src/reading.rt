//! Rows of `check` and `rewrite`.

use crate::modules::{ADD, HEADER, SLICED};
use crate::row::{NEVER, Row, end, first_wrong, gives};
use std::test::Fail;

// The addition, with the size of the type section in five bytes.
const PADDED: &[u8] =
    b"\0asm\x01\0\0\0\x01\x87\x80\x80\x80\x00\x01\x60\x02\x7F\x7F\x01\x7F\x03\x02\x01\x00\x0A\x09\x01\x07\x00\x20\x00\x20\x01\x6A\x0B";

// `() -> i32` with `i32.const 1; br 0; i64.const 0`, which leaves an i64 too many.
const INVALID: &[u8] =
    b"\0asm\x01\0\0\0\x01\x05\x01\x60\x00\x01\x7F\x03\x02\x01\x00\x0A\x0A\x01\x08\x00\x41\x01\x0C\x00\x42\x00\x0B";

// One page, `() -> i32`: `i32.const 0; i32.const 263; i32.const 4; memory.fill; i32.const 0; i32.load8_u 0 0`.
const FILL: &[u8] =
    b"\0asm\x01\0\0\0\x01\x05\x01\x60\x00\x01\x7F\x03\x02\x01\x00\x05\x03\x01\x00\x01\x0A\x13\x01\x11\x00\x41\x00\x41\x87\x02\x41\x04\xFC\x0B\x00\x41\x00\x2D\x00\x00\x0B";

// The same, with the number behind the opcode of the fill in two bytes.
const LONG_FILL: &[u8] =
    b"\0asm\x01\0\0\0\x01\x05\x01\x60\x00\x01\x7F\x03\x02\x01\x00\x05\x03\x01\x00\x01\x0A\x14\x01\x12\x00\x41\x00\x41\x87\x02\x41\x04\xFC\x8B\x00\x00\x41\x00\x2D\x00\x00\x0B";

// The same without a memory, and with another number behind the opcode.
const NO_MEMORY: &[u8] =
    b"\0asm\x01\0\0\0\x01\x05\x01\x60\x00\x01\x7F\x03\x02\x01\x00\x0A\x0D\x01\x0B\x00\x41\x00\x41\x07\x41\x04\xFC\x0B\x00\x0B";

const OTHER_BULK: &[u8] =
    b"\0asm\x01\0\0\0\x01\x05\x01\x60\x00\x01\x7F\x03\x02\x01\x00\x05\x03\x01\x00\x01\x0A\x0D\x01\x0B\x00\x41\x00\x41\x07\x41\x04\xFC\x0C\x00\x0B";

const FLOAT_LINE: &str = "wassail: module refused: float type or instruction in function 0\n";

const INVALID_LINE: &str = "wassail: module refused: invalid function 0\n";

// A float comes before what isn't valid, and unreachable code is typed: `unreachable; f64.const 0; drop`, `f64.const 0` and
// `unreachable; i32.add; drop`, each of `() -> ()`, and what leaves a value of another type.
const CHECKED: &[Row] = &[
    (
        "check",
        b"\0asm\x01\0\0\0\x01\x04\x01\x60\x00\x00\x03\x02\x01\x00\x0A\x0F\x01\x0D\x00\x00\x44\0\0\0\0\0\0\0\0\x1A\x0B",
        1,
        b"",
        FLOAT_LINE,
    ),
    (
        "check",
        b"\0asm\x01\0\0\0\x01\x04\x01\x60\x00\x00\x03\x02\x01\x00\x0A\x0D\x01\x0B\x00\x44\0\0\0\0\0\0\0\0\x0B",
        1,
        b"",
        FLOAT_LINE,
    ),
    (
        "check",
        b"\0asm\x01\0\0\0\x01\x04\x01\x60\x00\x00\x03\x02\x01\x00\x0A\x07\x01\x05\x00\x00\x6A\x1A\x0B",
        0,
        b"valid\n",
        "",
    ),
    ("check", INVALID, 1, b"", INVALID_LINE),
    ("check", FILL, 0, b"valid\n", ""),
    ("check", NO_MEMORY, 1, b"", INVALID_LINE),
    (
        "check",
        OTHER_BULK,
        1,
        b"",
        "wassail: module refused: section 3 (id 10) does not read\n",
    ),
];

#[test]
fn checks_modules(rt: HostRuntime) -> Result<(), Fail> {
    assert_eq!(rt; first_wrong(&rt, CHECKED)?, None);
    Ok(())
}

// Modules in long spellings become canonical ones: the size of a section in five bytes, the number of a memory.fill in two, a table number in five bytes, a
// constant of ten bytes, and an `else` before an empty arm. No invalid module is rewritten.
const REWRITTEN: &[Row] = &[
    ("rewrite", HEADER, 0, HEADER, ""),
    ("rewrite", ADD, 0, ADD, ""),
    ("rewrite", PADDED, 0, ADD, ""),
    ("rewrite", FILL, 0, FILL, ""),
    ("rewrite", LONG_FILL, 0, FILL, ""),
    ("rewrite", SLICED, 0, SLICED, ""),
    (
        "rewrite",
        INVALID,
        1,
        b"",
        "wassail: module refused: invalid function 0\n",
    ),
    (
        "rewrite",
        b"\0asm\x01\0\0\0\x01\x04\x01\x60\x00\x00\x03\x02\x01\x00\x04\x04\x01\x70\x00\x00\x0A\x0D\x01\x0B\x00\x41\x00\x11\x00\x80\x80\x80\x80\x00\x0B",
        0,
        b"\0asm\x01\0\0\0\x01\x04\x01\x60\x00\x00\x03\x02\x01\x00\x04\x04\x01\x70\x00\x00\x0A\x09\x01\x07\x00\x41\x00\x11\x00\x00\x0B",
        "",
    ),
    (
        "rewrite",
        b"\0asm\x01\0\0\0\x01\x05\x01\x60\x00\x01\x7E\x03\x02\x01\x00\x0A\x0F\x01\x0D\x00\x42\xFF\xFF\xFF\xFF\xFF\xFF\xFF\xFF\xFF\x7F\x0B",
        0,
        b"\0asm\x01\0\0\0\x01\x05\x01\x60\x00\x01\x7E\x03\x02\x01\x00\x0A\x06\x01\x04\x00\x42\x7F\x0B",
        "",
    ),
    (
        "rewrite",
        b"\0asm\x01\0\0\0\x01\x04\x01\x60\x00\x00\x03\x02\x01\x00\x0A\x0A\x01\x08\x00\x41\x00\x04\x40\x05\x0B\x0B",
        0,
        b"\0asm\x01\0\0\0\x01\x04\x01\x60\x00\x00\x03\x02\x01\x00\x0A\x09\x01\x07\x00\x41\x00\x04\x40\x0B\x0B",
        "",
    ),
];

#[test]
fn rewrites_modules(rt: HostRuntime) -> Result<(), Fail> {
    assert_eq!(rt; first_wrong(&rt, REWRITTEN)?, None);
    Ok(())
}

// Whether `check` and `rewrite` give this of canonical bytes: the line of a refusal, or where it is empty that they are a valid module.
fn both_give(rt: &HostRuntime, bytes: &[u8], line: &str) -> Result<bool, Fail> {
    if line.is_empty() {
        Ok(
            gives(rt, "check", bytes, 0, b"valid\n", "")?
                && gives(rt, "rewrite", bytes, 0, bytes, "")?,
        )
    } else {
        Ok(gives(rt, "check", bytes, 1, b"", line)? && gives(rt, "rewrite", bytes, 1, b"", line)?)
    }
}

// The first bytes of the addition, from so many on and below so many, and the line that tells of them: none where they are a valid module.
const CUT_OFF: &[(usize, usize, &str)] = &[
    (0, 8, "wassail: module refused: no module header\n"),
    (8, 9, ""),
    (9, 17, "wassail: module refused: section 0 has no frame\n"),
    (17, 18, ""),
    (18, 21, "wassail: module refused: section 1 has no frame\n"),
    (
        21,
        22,
        "wassail: module refused: function and code sections differ in count\n",
    ),
    (22, 32, "wassail: module refused: section 2 has no frame\n"),
    (32, 33, ""),
];

#[test]
fn tells_where_a_module_is_cut_off(rt: HostRuntime) -> Result<(), Fail> {
    for (from, to, line) in CUT_OFF {
        for length in *from..*to {
            let bytes = &ADD[..ADD.len().min(length)];
            assert!(rt; both_give(&rt, bytes, line)?, "of length {length}");
        }
    }
    Ok(())
}

// A module of one type, with this type section up to the parameters, so many of them and no results.
fn with_params(rt: &HostRuntime, head: &[u8], params: u32) -> Result<Vec<u8>, Fail> {
    let mut bytes = HEADER.to_vec(rt.alloc())?;
    bytes.extend_from_slice(head)?;
    for _ in 0..params {
        bytes.push(0x7F)?;
    }
    bytes.push(0)?;
    Ok(bytes)
}

// A module of one function `() -> ()`, with this code section up to the locals, so many nested blocks, and so many ends.
fn nested(rt: &HostRuntime, head: &[u8], blocks: u32, ends: u32) -> Result<Vec<u8>, Fail> {
    let mut bytes = b"\0asm\x01\0\0\0\x01\x04\x01\x60\x00\x00\x03\x02\x01\x00".to_vec(rt.alloc())?;
    bytes.extend_from_slice(head)?;
    for _ in 0..blocks {
        bytes.extend_from_slice(b"\x02\x40")?;
    }
    for _ in 0..ends {
        bytes.push(0x0B)?;
    }
    Ok(bytes)
}

// Whether `check` and `rewrite` give this of so many parameters.
fn params_give(rt: &HostRuntime, head: &[u8], params: u32, line: &str) -> Result<bool, Fail> {
    let bytes = with_params(rt, head, params)?;
    both_give(rt, &bytes, line)
}

// Whether they give this of so many nested blocks and ends.
fn blocks_give(
    rt: &HostRuntime,
    head: &[u8],
    blocks: u32,
    ends: u32,
    line: &str,
) -> Result<bool, Fail> {
    let bytes = nested(rt, head, blocks, ends)?;
    both_give(rt, &bytes, line)
}

// Whether `check` and `rewrite` refuse two million nested blocks and so many ends with this line. They are read in large pieces.
fn deep_blocks_give(rt: &HostRuntime, head: &[u8], ends: u32, line: &str) -> Result<bool, Fail> {
    let bytes = nested(rt, head, 2000000, ends)?;
    let checked = end(rt, &["check"], &bytes, 1048576, NEVER, NEVER)?;
    let rewritten = end(rt, &["rewrite"], &bytes, 1048576, NEVER, NEVER)?;
    Ok(checked.is(1, 0, b"", line) && rewritten.is(1, 0, b"", line))
}

#[test]
fn keeps_the_limits(rt: HostRuntime) -> Result<(), Fail> {
    let line = "wassail: module refused: limit: type 0 has 65 parameters\n";
    assert!(rt; params_give(&rt, b"\x01\x44\x01\x60\x40", 64, "")?);
    assert!(rt; params_give(&rt, b"\x01\x45\x01\x60\x41", 65, line)?);
    let line = "wassail: module refused: nesting over 1024 in section id 10 entry 0\n";
    assert!(rt; blocks_give(&rt, b"\x0A\x85\x18\x01\x82\x18\x00", 1024, 1025, "")?);
    assert!(rt; blocks_give(&rt, b"\x0A\x88\x18\x01\x85\x18\x00", 1025, 1026, line)?);
    assert!(rt;
        deep_blocks_give(
            &rt,
            b"\x0A\x87\x9B\xEE\x02\x01\x82\x9B\xEE\x02\x00",
            2000001,
            line
        )?
    );
    let line = "wassail: module refused: section 2 (id 10) does not read\n";
    assert!(rt;
        deep_blocks_give(
            &rt,
            b"\x0A\x86\x9B\xEE\x02\x01\x81\x9B\xEE\x02\x00",
            2000000,
            line
        )?
    );
    Ok(())
}

// A header, and a custom section whose name is `x` and that fills the greatest length with 8,388,593 zeros; and so many zeros.
fn filled(rt: &HostRuntime, zeros: usize) -> Result<Vec<u8>, Fail> {
    let mut bytes = b"\0asm\x01\0\0\0\x00\xF3\xFF\xFF\x03\x01x".to_vec(rt.alloc())?;
    let zeros = vec![in rt.alloc(); 0u8; zeros]?;
    bytes.extend_from_slice(&zeros)?;
    Ok(bytes)
}

// Whether a call gives this of so many zeros, and reads all.
fn zeros_give(
    rt: &HostRuntime,
    word: &str,
    zeros: usize,
    status: u8,
    out: &[u8],
    err: &str,
) -> Result<bool, Fail> {
    let bytes = filled(rt, zeros)?;
    let got = end(rt, &[word], &bytes, 1048576, NEVER, NEVER)?;
    Ok(got.is(status, 0, out, err))
}

#[test]
fn reads_no_byte_more_than_the_greatest_length(rt: HostRuntime) -> Result<(), Fail> {
    let line = "wassail: module refused: longer than 8388608 bytes\n";
    assert!(rt; zeros_give(&rt, "rewrite", 8388593, 0, HEADER, "")?);
    assert!(rt; zeros_give(&rt, "check", 8388593, 0, b"valid\n", "")?);
    assert!(rt; zeros_give(&rt, "rewrite", 8388594, 1, b"", line)?);
    Ok(())
}
