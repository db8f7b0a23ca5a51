//! What may be asked of a node.

ghost use Rattle.std.specs.Prelude.{◌≡◌, ◌↔◌, IfSome, IsTrue, None};
ghost use Rattle.wasm_types.specs.declared.place.Loc.{Loc};
ghost use Rattle.flow_domain.specs.declared.summary.Summary.{Summary};
ghost use Rattle.flow_domain.specs.Summaries.{HasInput, asked, place_of};
ghost use Rattle.called_rows.specs.Whom as spec;

use flow_domain::{Input, Output, Summary};
use wasm_types::Loc;

/// The value that a node makes, that its instruction completes, or what it writes to a location.
#[derive(Clone, Copy, Drop)]
pub enum Made {
    Ret,
    Done,
    Final(Loc),
}

/// A location at the entry as an input.
pub fn input_of(loc: Loc) -> Input
    ensures { place_of result ≡ loc }
{
    match loc {
        Loc::Local(local) => Input::Param(local),
        Loc::Global(global) => Input::Global(global),
        Loc::Mem => Input::Mem,
        Loc::Size => Input::Size,
        Loc::Host => Input::Host,
    }
}

/// A location at the end as an output: none of a local.
fn final_of(loc: Loc) -> Option<Output>
    ensures some { IfSome result (λ out. asked out ≡ spec.output_of (Made.Final loc)) }
    ensures none { result ≡ None → (s : Summary) (x : Loc) → HasInput s (spec.output_of (Made.Final loc)) x → ⊥ }
{
    match loc {
        Loc::Local(_) => None,
        Loc::Global(global) => Some(Output::Global(global)),
        Loc::Mem => Some(Output::Mem),
        Loc::Size => Some(Output::Size),
        Loc::Host => Some(Output::Host),
    }
}

impl Made {
    /// The output of a call that is asked for: none of a local.
    fn output(self) -> Option<Output>
        ensures some { IfSome result (λ out. asked out ≡ spec.output_of self) }
        ensures none { result ≡ None → (s : Summary) (x : Loc) → HasInput s (spec.output_of self) x → ⊥ }
    {
        match self {
            Made::Ret => Some(Output::Ret),
            Made::Done => Some(Output::Done),
            Made::Final(loc) => final_of(loc),
        }
    }

    /// Whether the rows of a function called lead from what is asked to a location at its entry.
    pub(crate) fn needs(self, rows: &Summary, loc: Loc) -> bool
        ensures { IsTrue result ↔ HasInput rows.now (spec.output_of self) loc }
    {
        match self.output() {
            Some(out) => rows.has(out, input_of(loc)),
            None => false,
        }
    }
}
