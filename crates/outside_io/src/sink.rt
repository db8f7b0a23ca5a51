// A sink of bytes, by what it holds and how often it failed.
ghost use Rattle.std.specs.Prelude.{◌≡◌, ℕ, List, None};
ghost use Rattle.std.specs.declared.option.Option.{Option};
ghost use Rattle.std.specs.Io.KnownBytes.{WriteAppends};
ghost use Rattle.outside_io.specs.Causes.{HasCause, CountsFailure};
ghost use Rattle.outside_io.specs.Pieces.{TakesPiece};
ghost use Rattle.outside_io.specs.Std.{sink_faults, sink_inner};

use crate::Failed;
use std::io::Write;

/// Something that bytes are written to, as a file, a pipe or memory.
pub trait Sink {
    /// The bytes that it holds, where the sink tells them. One that tells them does so after each call too.
    ghost held: { Self → Option (List ℕ) };

    /// How often it has failed, up to 2^64 - 1.
    ghost faults: { Self → ℕ };

    /// Appends a front of the piece, at least one byte of a piece that isn't empty, and answers how many bytes.
    /// `Failed` comes only where the count of faults rose, and nothing was appended then.
    fn write(&mut self, piece: &[u8]) -> Result<usize, Failed>
        ensures size { TakesPiece result piece.now }
        ensures bytes { WriteAppends (held self.old) (held self.new) result piece.now }
        ensures cause { HasCause (faults self.old) (faults self.new) result };
}

/// A sink over any writer of std. It tells no bytes, since nobody knows what became of them.
#[derive(Drop)]
pub struct StdSink<W: Write> {
    inner: W,
    faults: u64,
}

impl<W: Write> StdSink<W> {
    /// A sink over this writer, which hasn't failed yet.
    pub fn new(inner: W) -> Self
        ensures over { sink_inner result ≡ inner }
        ensures faults { sink_faults result ≡ 0 }
    {
        StdSink { inner, faults: 0 }
    }

    /// How often it has failed, up to 2^64 - 1.
    pub fn faults(&self) -> u64
        ensures { result ≡ sink_faults self.now }
    {
        self.faults
    }
}

impl<W: Write> Sink for StdSink<W> {
    // A piece whose flush failed may have been taken, so nothing is told, even of a writer that tells.
    ghost held = { λ _. None };

    ghost faults = { λ k. k.faults };

    /// Writes once and flushes. `Failed` comes where the writer answers an error to either, or takes nothing of a piece
    /// that isn't empty, which counts one fault.
    fn write(&mut self, piece: &[u8]) -> Result<usize, Failed>
        ensures size { TakesPiece result piece.now }
        ensures bytes { WriteAppends None None result piece.now }
        ensures cause { HasCause (sink_faults self.old) (sink_faults self.new) result }
        ensures count { CountsFailure (sink_faults self.old) (sink_faults self.new) result }
    {
        if piece.is_empty() {
            return Ok(0);
        }
        match self.inner.write(piece) {
            Ok(0) | Err(_) => {
                self.faults = self.faults.saturating_add(1);
                Err(Failed)
            }
            Ok(count) => match self.inner.flush() {
                Ok(()) => Ok(count),
                Err(_) => {
                    self.faults = self.faults.saturating_add(1);
                    Err(Failed)
                }
            },
        }
    }
}
