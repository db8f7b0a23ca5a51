//! Two runs of code: what rows leave out has no influence, and a cut follows its body.
#![tactic(auto)]

ghost use Rattle.flow_laws.specs.Exact.{ExactServes};
ghost use Rattle.flow_laws.specs.Kept.{KeptServes, SlicedReturns};
ghost use Rattle.flow_laws.specs.Slices.{SliceReturns};
ghost use Rattle.flow_laws.specs.Soundness.{DoneSound, RowsSound};

/// What the rows leave out of an output has no influence on it, in any two invocations that return.
pub fn law_rows_sound()
    ensures { RowsSound }
{}

/// What the rows leave out of completion has no influence on whether an invocation returns, nor on its turns.
pub fn law_done_sound()
    ensures { DoneSound }
{}

/// Whenever a function returns, its slice by closed sets, appended to the module, returns from the same start, with equal events and no more turns.
pub fn law_slice_returns()
    ensures { SliceReturns }
{}

/// What the functions that a function reaches write is a cover that the other laws ask for.
pub fn law_exact_serves()
    ensures { ExactServes }
{}

/// The kept set of any position of a module, with the nodes whose value is needed, keeps the rules of slices.
pub fn law_kept_serves()
    ensures { KeptServes }
{}

/// So whenever a function returns, its sliced module's function returns from the same start, with equal events and no more turns.
pub fn law_sliced_returns()
    ensures { SlicedReturns }
{}
