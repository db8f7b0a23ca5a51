//! Modules with one thing wrong: where `decode` finds it, and the line of the program. Numbers in more bytes than they need are nothing wrong.

ghost use Rattle.std.specs.Prelude.{IfOk, ◌≤◌, length};

use crate::modules::ADD;
use crate::row::gives;
use std::test::Fail;
use wasm_decode::{DecodeEnd, decode};

/// The addition where these bytes stand in place of those from one place to another, where that is broken, and the end of its line.
type Break = (usize, usize, &'static [u8], DecodeEnd, &'static str);

const BROKEN: &[Break] = &[
    // The size of the type section in six bytes.
    (
        9,
        10,
        b"\x87\x80\x80\x80\x80\x00",
        DecodeEnd::Frame { k: 0 },
        "section 0 has no frame\n",
    ),
    // Two type sections.
    (
        17,
        17,
        b"\x01\x07\x01\x60\x02\x7F\x7F\x01\x7F",
        DecodeEnd::Frame { k: 1 },
        "section 1 has no frame\n",
    ),
    // The code section before the function section.
    (
        17,
        32,
        b"\x0A\x09\x01\x07\x00\x20\x00\x20\x01\x6A\x0B\x03\x02\x01\x00",
        DecodeEnd::Frame { k: 2 },
        "section 2 has no frame\n",
    ),
    // An id that no section has.
    (
        8,
        32,
        b"\x0C\x01\x00",
        DecodeEnd::Frame { k: 0 },
        "section 0 has no frame\n",
    ),
    // A custom section without a name.
    (
        8,
        32,
        b"\x00\x00",
        DecodeEnd::Section { k: 0, id: 0 },
        "section 0 (id 0) does not read\n",
    ),
    // A name that is no text.
    (
        8,
        32,
        b"\x00\x02\x01\xFF",
        DecodeEnd::Section { k: 0, id: 0 },
        "section 0 (id 0) does not read\n",
    ),
    // An entry that is longer than its size.
    (
        24,
        25,
        b"\x06",
        DecodeEnd::Section { k: 2, id: 10 },
        "section 2 (id 10) does not read\n",
    ),
    // An entry that is shorter than its size.
    (
        24,
        25,
        b"\x08",
        DecodeEnd::Section { k: 2, id: 10 },
        "section 2 (id 10) does not read\n",
    ),
    // An i32 constant of 35 bits.
    (
        22,
        32,
        b"\x0A\x01\x08\x00\x41\xFF\xFF\xFF\xFF\x0F\x0B",
        DecodeEnd::Section { k: 2, id: 10 },
        "section 2 (id 10) does not read\n",
    ),
    // 2^32 locals.
    (
        22,
        32,
        b"\x0C\x01\x0A\x02\xFF\xFF\xFF\xFF\x0F\x7F\x01\x7F\x0B",
        DecodeEnd::Section { k: 2, id: 10 },
        "section 2 (id 10) does not read\n",
    ),
];

// The addition with these bytes in place of those from one place to another.
fn changed(rt: &HostRuntime, from: usize, to: usize, put: &[u8]) -> Result<Vec<u8>, Fail> {
    let mut bytes = Vec::new(rt.alloc());
    for (k, byte) in ADD.iter().enumerate() {
        if k == from {
            bytes.extend_from_slice(put)?;
        }
        if k < from || to <= k {
            bytes.push(*byte)?;
        }
    }
    Ok(bytes)
}

// Where the bytes are broken.
fn break_of(rt: &HostRuntime, bytes: &[u8]) -> Result<Option<DecodeEnd>, Fail> {
    if bytes.len() > 100 {
        return Err("too long for a row")?;
    }
    match decode(rt.alloc(), bytes) {
        Ok(_) => Ok(None),
        Err(end) => Ok(Some(end)),
    }
}

// Whether `check` and `rewrite` refuse the bytes with a line that ends so.
fn are_refused(rt: &HostRuntime, bytes: &[u8], end: &str) -> Result<bool, Fail> {
    let line = format!(in rt.alloc(); "wassail: module refused: {end}")?;
    Ok(
        gives(rt, "check", bytes, 1, b"", line.as_str())?
            && gives(rt, "rewrite", bytes, 1, b"", line.as_str())?,
    )
}

#[test]
fn tells_where_modules_are_broken(rt: HostRuntime) -> Result<(), Fail> {
    for (from, to, put, broken, end) in BROKEN {
        let bytes = changed(&rt, *from, *to, put)?;
        assert_eq!(rt; break_of(&rt, &bytes)?, Some(*broken));
        assert!(rt; are_refused(&rt, &bytes, end)?, "{end}");
    }
    Ok(())
}

#[test]
fn reads_numbers_in_more_bytes_than_they_need(rt: HostRuntime) -> Result<(), Fail> {
    let bytes = changed(&rt, 22, 32, b"\x0A\x01\x08\x00\x20\x00\x20\x81\x00\x6A\x0B")?;
    assert!(rt; gives(&rt, "rewrite", &bytes, 0, ADD, "")?);
    Ok(())
}
