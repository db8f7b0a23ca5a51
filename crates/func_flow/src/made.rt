//! What an output of a node depends on, where it calls nothing.

ghost use Rattle.std.specs.Prelude.{◌≡◌, Some};
ghost use Rattle.called_rows.specs.Whom.{output_of};
ghost use Rattle.func_flow.specs.Next as spec;

use crate::steps::{Picks, Step};
use called_rows::Made;
use flow_domain::LocUse;

/// Which operands an output depends on, where the position calls nothing.
pub(crate) fn picks_for(made: Made, step: Step) -> Picks
    ensures { result ≡ spec.picks_for (output_of made) (Some step) }
{
    match made {
        Made::Done => step.traps,
        Made::Ret | Made::Final(_) => step.makes,
    }
}

/// Whether an output depends on a location that a position uses so.
pub(crate) fn uses_for(made: Made, one: LocUse) -> bool
    ensures { result ≡ spec.uses_for (output_of made) one }
{
    match made {
        Made::Done => one.checks,
        Made::Ret | Made::Final(_) => one.reads,
    }
}
