//! A run of a module from its start: its segments, its start function, and then a function (docs/MEANING.md, "Runs").
#![tactic(auto)]

ghost use Rattle.module_run.specs.Law.{OneRun, SomeRun};

mod runs;
mod values;

pub use runs::{RunEnd, RunRefusal, run};
pub use values::values_of;

/// A run has at most one end.
pub fn law_one_run()
    ensures { OneRun }
{}

/// A run in a sealed module whose memory begins with no more pages than a run may have, of a function called with arguments of its types, has an end: that it has
/// none is impossible.
pub fn law_some_run()
    ensures { SomeRun }
{}
