//! A listing that is being written.

ghost use Rattle.std.specs.Prelude.{◌≡◌, ◌<◌, ◌^◌, ◌++◌, [], IfOk, OnOk};
ghost use Rattle.report_text.specs.Drafts.{written};
ghost use Rattle.report_text.specs.Gaps.{IsLaid, shown};
ghost use Rattle.report_text.specs.Listing.{indent};

use crate::draft::Draft;
use crate::gaps::{Gap, Spaced};
use crate::place::place_indent;
use std::alloc::{AllocError, Global};

/// How many spaces are kept as a number, at least: a number takes about as much time as so many spaces and their memory.
const WIDE: usize = 32;

/// A listing that is being written: its text without the wide indentations, these, and how much text stands before the last of them.
#[derive(Drop)]
pub(crate) struct Page {
    pub(crate) draft: Draft,
    pub(crate) gaps: Vec<Gap>,
    pub(crate) last: usize,
}

/// Adds two spaces for each block around.
fn push_indent(out: &mut Draft, depth: usize) -> Result<(), AllocError>
    requires { depth < 2 ^ 32 }
    ensures { OnOk result (written out.new ≡ written out.old ++ indent depth) }
{
    out.reserve(2 * depth)?;
    out.len = place_indent(out.bytes.as_mut_slice(), out.len, depth);
    Ok(())
}

impl Page {
    /// Nothing yet, with so many bytes asked for ahead: what isn't written costs nothing, and a text that fits is never moved.
    pub(crate) fn with_capacity(alloc: Global, capacity: usize) -> Result<Page, AllocError>
        ensures shown { IfOk result (λ page. shown page ≡ []) }
        ensures laid { IfOk result (λ page. IsLaid page) }
    {
        let draft = Draft::with_capacity(alloc, capacity)?;
        Ok(Page {
            draft,
            gaps: Vec::new(alloc),
            last: 0,
        })
    }

    /// Adds two spaces for each block around.
    pub(crate) fn indent(&mut self, depth: usize) -> Result<(), AllocError>
        requires few { depth < 2 ^ 32 }
        requires laid { IsLaid self.old }
        ensures shown { OnOk result (shown self.new ≡ shown self.old ++ indent depth) }
        ensures laid { OnOk result (IsLaid self.new) }
    {
        let spaces = 2 * depth;
        let before = self.draft.len - self.last;
        if spaces < WIDE || spaces.max(before) > u32::MAX as usize {
            push_indent(&mut self.draft, depth)?;
            return Ok(());
        }
        self.gaps.push(Gap {
            before: before as u32,
            spaces: spaces as u32,
        })?;
        self.last = self.draft.len;
        Ok(())
    }

    /// The text.
    pub(crate) fn into_text(self) -> Spaced
        ensures { result ≡ shown self }
    {
        let Page {
            draft,
            gaps,
            last: _,
        } = self;
        Spaced::new(draft.into_bytes(), gaps)
    }
}
