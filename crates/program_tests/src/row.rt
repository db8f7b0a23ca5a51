//! What a call of the program gives, beside what it is to give.

ghost use Rattle.std.specs.Prelude.{◌≤◌};

use outside_io::{MemSink, MemSource};
use std::test::Fail;
use wassail_top::wassail;

/// The words of a call with spaces between, the bytes of its source, and what it gives: the status, and what out and err gain.
pub type Row = (&'static str, &'static [u8], u8, &'static [u8], &'static str);

/// The number of a call of a source or a sink that isn't made.
pub const NEVER: u32 = 999999;

/// What a call gives: its status, how many bytes of its source are left, and what out and err gain.
#[derive(Drop)]
pub struct Ending {
    pub status: u8,
    pub left: usize,
    pub out: Vec<u8>,
    pub err: Vec<u8>,
}

/// What a call gives, where a source of this piece and an out of piece 5 fail at these calls.
pub fn end(
    rt: &HostRuntime,
    words: &[&str],
    bytes: &[u8],
    piece: usize,
    read_fails: u32,
    out_fails: u32,
) -> Result<Ending, Fail>
    requires { 1 ≤ piece }
{
    let words = owned(rt, words)?;
    let mut source = source(rt, bytes, piece, read_fails)?;
    let mut out = sink(rt, 4096, 5, out_fails)?;
    let mut err = sink(rt, 4096, 7, NEVER)?;
    call(rt, &words, &mut source, &mut out, &mut err)
}

/// What a call gives where nothing is read in vain, out has this room and fails at this call in pieces of 5, and err fails at this one.
pub fn end_of_sinks(
    rt: &HostRuntime,
    words: &[&str],
    bytes: &[u8],
    room: usize,
    out_fails: u32,
    err_fails: u32,
) -> Result<Ending, Fail> {
    let words = owned(rt, words)?;
    let mut source = source(rt, bytes, 3, NEVER)?;
    let mut out = sink(rt, room, 5, out_fails)?;
    let mut err = sink(rt, 4096, 7, err_fails)?;
    call(rt, &words, &mut source, &mut out, &mut err)
}

// Words of their own.
fn owned(rt: &HostRuntime, words: &[&str]) -> Result<Vec<String>, Fail> {
    let mut owned = Vec::new(rt.alloc());
    for word in words {
        owned.push(String::from_str(rt.alloc(), word)?)?;
    }
    Ok(owned)
}

// A source that gives pieces of this size, and fails at this call.
fn source(rt: &HostRuntime, bytes: &[u8], piece: usize, fails: u32) -> Result<MemSource, Fail>
    requires { 1 ≤ piece }
{
    let bytes = bytes.to_vec(rt.alloc())?;
    let fails = vec![in rt.alloc(); fails]?;
    Ok(MemSource::new(bytes, piece, fails))
}

// A sink with this room that takes pieces of this size, and fails at this call.
fn sink(rt: &HostRuntime, room: usize, piece: usize, fails: u32) -> Result<MemSink, Fail>
    requires { 1 ≤ piece }
{
    let fails = vec![in rt.alloc(); fails]?;
    match MemSink::new(rt.alloc(), room, piece, fails) {
        Ok(sink) => Ok(sink),
        Err(_) => Err("no memory")?,
    }
}

// Calls the program, and tells what it gave.
fn call(
    rt: &HostRuntime,
    words: &[String],
    source: &mut MemSource,
    out: &mut MemSink,
    err: &mut MemSink,
) -> Result<Ending, Fail> {
    let status = wassail(rt.alloc(), words, source, out, err);
    Ok(Ending {
        status,
        left: source.left().len(),
        out: out.held().to_vec(rt.alloc())?,
        err: err.held().to_vec(rt.alloc())?,
    })
}

/// What a call gives where nothing fails, with a source of piece 3.
pub fn end_of(rt: &HostRuntime, words: &str, bytes: &[u8]) -> Result<Ending, Fail> {
    let mut list = Vec::new(rt.alloc());
    for word in words.split(' ') {
        list.push(word)?;
    }
    end(rt, &list, bytes, 3, NEVER, NEVER)
}

impl Ending {
    /// Whether a call gave this.
    pub fn is(&self, status: u8, left: usize, out: &[u8], err: &str) -> bool {
        self.status == status
            && self.left == left
            && self.out.as_slice() == out
            && self.err.as_slice() == err.as_bytes()
    }
}

/// Whether a call gives this. All bytes are left where the words are refused, and none elsewhere.
pub fn gives(
    rt: &HostRuntime,
    words: &str,
    bytes: &[u8],
    status: u8,
    out: &[u8],
    err: &str,
) -> Result<bool, Fail> {
    let got = end_of(rt, words, bytes)?;
    let left = if status == 2 { bytes.len() } else { 0 };
    Ok(got.is(status, left, out, err))
}

/// The number of the first row that its call doesn't give.
pub fn first_wrong(rt: &HostRuntime, rows: &[Row]) -> Result<Option<usize>, Fail> {
    for (k, (words, bytes, status, out, err)) in rows.iter().enumerate() {
        if !gives(rt, words, bytes, *status, out, err)? {
            return Ok(Some(k));
        }
    }
    Ok(None)
}
