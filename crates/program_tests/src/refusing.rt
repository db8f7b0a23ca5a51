//! Words that are refused, and faults.

use crate::modules::{ADD, HEADER};
use crate::row::{NEVER, Row, end, first_wrong};
use std::test::Fail;

const REFUSED: &str = "wassail: words refused\n";

const NO_COMMANDS: &[Row] = &[
    ("", HEADER, 2, b"", REFUSED),
    ("check 0", HEADER, 2, b"", REFUSED),
    ("rewrite 0", HEADER, 2, b"", REFUSED),
    ("run 0", HEADER, 2, b"", REFUSED),
    ("run 0 5 x", HEADER, 2, b"", REFUSED),
    ("run 0 5 / /", HEADER, 2, b"", REFUSED),
    ("run 0 5 / g0=1,2", HEADER, 2, b"", REFUSED),
    ("trace 0 0", HEADER, 2, b"", REFUSED),
    ("trace 0 0 4294967296", HEADER, 2, b"", REFUSED),
    ("trace 0 0 5 18446744073709551616", HEADER, 2, b"", REFUSED),
    ("Rewrite", HEADER, 2, b"", REFUSED),
    ("slice 0 x s", HEADER, 2, b"", REFUSED),
    ("slice 0 4294967296 s", HEADER, 2, b"", REFUSED),
    ("slice 0 0", HEADER, 2, b"", REFUSED),
    ("kept 0", HEADER, 2, b"", REFUSED),
    ("summary 0 0", HEADER, 2, b"", REFUSED),
    ("summary x", HEADER, 2, b"", REFUSED),
    ("mill", HEADER, 2, b"", REFUSED),
    ("mill x", HEADER, 2, b"", REFUSED),
    ("mill 4294967296", HEADER, 2, b"", REFUSED),
    ("mill 1 1", HEADER, 2, b"", REFUSED),
];

#[test]
fn refuses_words_and_reads_nothing(rt: HostRuntime) -> Result<(), Fail> {
    assert_eq!(rt; first_wrong(&rt, NO_COMMANDS)?, None);
    let got = end(&rt, &[], HEADER, 3, NEVER, NEVER)?;
    assert!(rt; got.is(2, 8, b"", REFUSED));
    Ok(())
}

#[test]
fn refuses_a_name_of_one_byte_too_many(rt: HostRuntime) -> Result<(), Fail> {
    let name = "n".repeat(rt.alloc(), 65537)?;
    let got = end(
        &rt,
        &["slice", "0", "0", name.as_str()],
        ADD,
        3,
        NEVER,
        NEVER,
    )?;
    assert!(rt; got.is(2, 32, b"", REFUSED));
    Ok(())
}

// The second read fails, and the second write on out.
#[test]
fn tells_of_faults(rt: HostRuntime) -> Result<(), Fail> {
    let got = end(&rt, &["rewrite"], HEADER, 3, 1, NEVER)?;
    assert!(rt; got.is(3, 5, b"", "wassail: read failed\n"));
    let got = end(&rt, &["rewrite"], HEADER, 3, NEVER, 1)?;
    assert!(rt; got.is(4, 0, &HEADER[..5], ""));
    Ok(())
}
