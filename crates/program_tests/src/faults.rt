//! Rows in which each call of a source or a sink fails in turn.

use crate::modules::{ADD, SLICED};
use crate::row::{NEVER, end, end_of_sinks};
use std::test::Fail;

// Each call of a source of piece 3, and how much of the addition is left before it: the last one tells the end.
const READS: &[(u32, usize)] = &[
    (0, 32),
    (1, 29),
    (2, 26),
    (3, 23),
    (4, 20),
    (5, 17),
    (6, 14),
    (7, 11),
    (8, 8),
    (9, 5),
    (10, 2),
    (11, 0),
];

#[test]
fn tells_of_each_read_that_fails(rt: HostRuntime) -> Result<(), Fail> {
    for (call, left) in READS {
        let got = end(&rt, &["rewrite"], ADD, 3, *call, NEVER)?;
        assert!(rt;
            got.is(3, *left, b"", "wassail: read failed\n"),
            "call {call}"
        );
    }
    let got = end(&rt, &["rewrite"], ADD, 3, 12, NEVER)?;
    assert!(rt; got.is(0, 0, ADD, ""));
    Ok(())
}

// Each call of an out of piece 5, and how much of the sliced addition it holds before it.
const WRITES: &[(u32, usize)] = &[
    (0, 0),
    (1, 5),
    (2, 10),
    (3, 15),
    (4, 20),
    (5, 25),
    (6, 30),
    (7, 35),
    (8, 40),
    (9, 45),
];

#[test]
fn tells_of_each_write_that_fails(rt: HostRuntime) -> Result<(), Fail> {
    for (call, held) in WRITES {
        let got = end_of_sinks(&rt, &["slice", "0", "0", "s"], ADD, 4096, *call, NEVER)?;
        let front = &SLICED[..SLICED.len().min(*held)];
        assert!(rt; got.is(4, 0, front, ""), "call {call}");
    }
    Ok(())
}

#[test]
fn tells_of_an_err_that_fails_and_an_out_that_is_full(rt: HostRuntime) -> Result<(), Fail> {
    let words = &["slice", "0", "0", "s"];
    let got = end_of_sinks(&rt, words, ADD, 4096, NEVER, 0)?;
    assert!(rt; got.is(4, 0, SLICED, ""));
    let got = end_of_sinks(&rt, words, ADD, 20, NEVER, NEVER)?;
    assert!(rt; got.is(4, 0, &SLICED[..20], ""));
    Ok(())
}
