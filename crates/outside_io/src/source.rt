// A source of bytes, by what it has left and how often it failed.
ghost use Rattle.std.specs.Prelude.{◌≡◌, ℕ, List};
ghost use Rattle.std.specs.declared.option.Option.{Option};
ghost use Rattle.std.specs.Io.{ReadsAtMost};
ghost use Rattle.std.specs.Io.KnownBytes.{ReadConsumes};
ghost use Rattle.outside_io.specs.Causes.{HasCause, CountsFailure};
ghost use Rattle.outside_io.specs.Std.{source_faults, source_inner};

use crate::Failed;
use std::io::Read;

/// Something that bytes are read from, as a file, a pipe or memory.
pub trait Source {
    /// The bytes that are left, where the source tells them. One that tells them does so after each call too.
    ghost left: { Self → Option (List ℕ) };

    /// How often it has failed, up to 2^64 - 1.
    ghost faults: { Self → ℕ };

    /// Puts the next bytes that are left at the front of the buffer, and answers how many. `Ok(0)` comes only where
    /// the buffer is empty or no byte is left. `Failed` comes only where the count of faults rose, and nothing was
    /// taken then.
    fn read(&mut self, buffer: &mut [u8]) -> Result<usize, Failed>
        ensures bound { ReadsAtMost result buffer.new }
        ensures bytes { ReadConsumes (left self.old) (left self.new) result buffer.new }
        ensures cause { HasCause (faults self.old) (faults self.new) result };
}

/// A source over any reader of std. It tells the bytes that its reader tells, which is none over a file or a pipe.
#[derive(Drop)]
pub struct StdSource<R: Read> {
    inner: R,
    faults: u64,
}

impl<R: Read> StdSource<R> {
    /// A source over this reader, which hasn't failed yet.
    pub fn new(inner: R) -> Self
        ensures over { source_inner result ≡ inner }
        ensures faults { source_faults result ≡ 0 }
    {
        StdSource { inner, faults: 0 }
    }

    /// How often it has failed, up to 2^64 - 1.
    pub fn faults(&self) -> u64
        ensures { result ≡ source_faults self.now }
    {
        self.faults
    }
}

impl<R: Read> Source for StdSource<R> {
    ghost left = { λ s. R.remaining s.inner };

    ghost faults = { λ s. s.faults };

    /// Asks the reader once. `Failed` comes where it answers an error, which counts one fault.
    fn read(&mut self, buffer: &mut [u8]) -> Result<usize, Failed>
        ensures bound { ReadsAtMost result buffer.new }
        ensures bytes { ReadConsumes (R.remaining (source_inner self.old)) (R.remaining (source_inner self.new)) result buffer.new }
        ensures cause { HasCause (source_faults self.old) (source_faults self.new) result }
        ensures count { CountsFailure (source_faults self.old) (source_faults self.new) result }
    {
        match self.inner.read(buffer) {
            Ok(count) => Ok(count),
            Err(_) => {
                self.faults = self.faults.saturating_add(1);
                Err(Failed)
            }
        }
    }
}
