//! Rows of large modules, for which nothing is read.

use crate::modules::HEADER;
use crate::row::end_of;
use std::test::Fail;

const UNFIT: &str = "wassail: query refused: arguments do not fit\n";

// The reports of small numbers.
const REPORTS: &[(&str, &[u8])] = &[
    (
        "mill 1",
        b"bytes 69\nfunctions 1\npositions 7\ninputs 9\nkept 3\nslice bytes 87\n",
    ),
    (
        "mill 2",
        b"bytes 100\nfunctions 2\npositions 19\ninputs 22\nkept 10\nslice bytes 126\n",
    ),
    (
        "mill 3",
        b"bytes 143\nfunctions 3\npositions 38\ninputs 35\nkept 17\nslice bytes 169\n",
    ),
    (
        "mill 300",
        b"bytes 10297\nfunctions 300\npositions 4196\ninputs 5074\nkept 2096\nslice bytes 10325\n",
    ),
];

#[test]
fn tells_of_large_modules_and_reads_nothing(rt: HostRuntime) -> Result<(), Fail> {
    for (words, report) in REPORTS {
        let got = end_of(&rt, words, HEADER)?;
        assert!(rt; got.is(0, 8, report, ""), "{words}");
    }
    Ok(())
}

#[test]
fn refuses_numbers_out_of_range(rt: HostRuntime) -> Result<(), Fail> {
    for words in ["mill 0", "mill 2001"] {
        let got = end_of(&rt, words, HEADER)?;
        assert!(rt; got.is(6, 8, b"", UNFIT), "{words}");
    }
    Ok(())
}
