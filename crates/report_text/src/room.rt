//! Room for a text that is being written.

ghost use Rattle.std.specs.Prelude.{◌≡◌, ◌≤◌, [], take, vec_len, IfOk, OnOk};
ghost use Rattle.report_text.specs.Drafts.{HasRoom, written};

use crate::draft::Draft;
use crate::front::Front;
use std::alloc::{AllocError, Global};

/// How many bytes are made ready at a time, at least.
const AHEAD: usize = 16 * 1024;

/// What is made ready at a time of the zeros.
static ZEROS: [u8; 1024] = [0; 1024];

/// Makes a list of bytes so long, by zeros.
fn fill(bytes: &mut Vec<u8>, len: usize) -> Result<(), AllocError>
    ensures kept { take (vec_len bytes.old) bytes.new.items ≡ bytes.old.items }
    ensures longer { vec_len bytes.old ≤ vec_len bytes.new }
    ensures filled { OnOk result (len ≤ vec_len bytes.new) }
{
    while bytes.len() < len {
        let step = (len - bytes.len()).min(ZEROS.len());
        bytes.extend_from_slice(&ZEROS[..step])?;
    }
    Ok(())
}

impl Draft {
    /// Nothing yet, with so many bytes asked for ahead: what isn't written costs nothing, and a text that fits is never moved.
    pub(crate) fn with_capacity(alloc: Global, capacity: usize) -> Result<Draft, AllocError>
        ensures { IfOk result (λ draft. written draft ≡ []) }
    {
        let bytes = Vec::with_capacity(alloc, capacity)?;
        Ok(Draft {
            bytes,
            len: 0,
            front: Front::of(0),
        })
    }

    /// Nothing yet.
    pub(crate) fn new(alloc: Global) -> Draft
        ensures { written result ≡ [] }
    {
        Draft {
            bytes: Vec::new(alloc),
            len: 0,
            front: Front::of(0),
        }
    }

    /// Makes room for so many bytes more.
    #[inline(always)]
    pub(crate) fn reserve(&mut self, room: usize) -> Result<(), AllocError>
        ensures kept { written self.new ≡ written self.old }
        ensures room { OnOk result (HasRoom room self.new) }
    {
        if room <= self.bytes.len() - self.len {
            return Ok(());
        }
        self.grow(room)
    }

    /// The part of `reserve` that asks for memory, apart so that the test is inlined.
    #[cold]
    #[inline(never)]
    fn grow(&mut self, room: usize) -> Result<(), AllocError>
        ensures kept { written self.new ≡ written self.old }
        ensures room { OnOk result (HasRoom room self.new) }
    {
        let Some(end) = self.len.checked_add(room) else {
            return Err(AllocError);
        };
        fill(&mut self.bytes, end.saturating_add(AHEAD))
    }

    /// The text.
    pub(crate) fn into_bytes(self) -> Vec<u8>
        ensures { result.items ≡ written self }
    {
        let Draft {
            mut bytes,
            len,
            front: _,
        } = self;
        bytes.truncate(len);
        bytes
    }
}
