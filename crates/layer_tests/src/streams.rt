//! The adapters of streams, and a source that never fails.

use outside_io::{QuietSource, StdSink, StdSource, read_all, write_all};
use std::test::Fail;

#[test]
fn adapters_pass_the_bytes_on(rt: HostRuntime) -> Result<(), Fail> {
    let alloc = rt.alloc();
    let mut source = StdSource::new(b"abc".as_slice());
    let bytes = read_all(alloc, &mut source, 3)?;
    assert_eq!(rt; bytes.as_slice(), b"abc".as_slice());
    assert_eq!(rt; source.faults(), 0);
    let mut held = Vec::new(alloc);
    let mut sink = StdSink::new(&mut held);
    assert_eq!(rt; write_all(&mut sink, b"abc"), Ok(()));
    assert_eq!(rt; sink.faults(), 0);
    assert_eq!(rt; held.as_slice(), b"abc".as_slice());
    Ok(())
}

#[test]
fn a_quiet_source_gives_all(rt: HostRuntime) -> Result<(), Fail> {
    let alloc = rt.alloc();
    let mut source = QuietSource::new(b"abc".to_vec(alloc)?);
    let bytes = read_all(alloc, &mut source, 3)?;
    assert_eq!(rt; bytes.as_slice(), b"abc".as_slice());
    assert_eq!(rt; source.faults(), 0);
    Ok(())
}
