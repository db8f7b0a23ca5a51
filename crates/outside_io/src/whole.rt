// Reading a source to its end, and writing a whole text.
ghost use Rattle.std.specs.Prelude.{ℕ, ◌-◌, ◌^◌, ◌<◌, ◌≤◌, OnOk, OnErr, IsErrOf};
ghost use Rattle.std.specs.Io.KnownBytes.{Appends};
ghost use Rattle.outside_io.specs.Causes.{Rose, HasCause};
ghost use Rattle.outside_io.specs.Whole.{ReadsAll, GavePrefix};

use crate::{Failed, Sink, Source};
use std::alloc::Global;
use thiserror::Error;

/// Why a source wasn't read to its end.
#[derive(Clone, Copy, Debug, PartialEq, Eq, Error)]
pub enum ReadEnd {
    /// The source failed.
    #[error("a read failed")]
    Fault,
    /// The source has more bytes than the limit allows.
    #[error("more bytes than the limit")]
    TooLong,
    /// Memory was wanted and isn't there.
    #[error("no memory")]
    Memory,
}

// Bytes asked for in one call.
const PIECE: usize = 65536;

/// All that is left in the source, read to its end, where that is at most `limit` bytes.
///
/// `Fault` comes only where the source's count of faults rose in this call. `TooLong` comes exactly where one byte
/// more than the limit was taken, and no call takes more than that. `Memory` comes only where an allocation is refused.
pub fn read_all<S: Source>(alloc: Global, source: &mut S, limit: usize) -> Result<Vec<u8>, ReadEnd>
    requires { limit < 2 ^ 64 - 1 }
    ensures taken { ReadsAll limit (S.left source.old) (S.left source.new) result }
    ensures fault { IsErrOf result ReadEnd.Fault → Rose (S.faults source.old) (S.faults source.new) }
    ensures later { S.faults source.old ≤ S.faults source.new }
{
    let mut bytes = Vec::new(alloc);
    let mut piece = [0u8; PIECE];
    loop {
        let room = (limit - bytes.len() + 1).min(PIECE);
        let Ok(count) = source.read(&mut piece[..room]) else {
            return Err(ReadEnd::Fault);
        };
        if count == 0 {
            return Ok(bytes);
        }
        if count > limit - bytes.len() {
            return Err(ReadEnd::TooLong);
        }
        if bytes.extend_from_slice(&piece[..count]).is_err() {
            return Err(ReadEnd::Memory);
        }
    }
}

/// Appends all the bytes to the sink.
///
/// `Failed` comes only where the sink's count of faults rose in this call; a front of the bytes was appended then.
/// It takes no memory.
pub fn write_all<K: Sink>(sink: &mut K, bytes: &[u8]) -> Result<(), Failed>
    ensures ok { OnOk result (Appends (K.held sink.old) (K.held sink.new) bytes.now) }
    ensures failed { OnErr result (GavePrefix (K.held sink.old) (K.held sink.new) bytes.now) }
    ensures cause { HasCause (K.faults sink.old) (K.faults sink.new) result }
{
    let mut rest = bytes;
    while !rest.is_empty() {
        let count = sink.write(rest)?;
        rest = &rest[count..];
    }
    Ok(())
}
