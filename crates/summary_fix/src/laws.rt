//! What holds of two runs, by the rounds of rows and by a table of summaries.

ghost use Rattle.summary_fix.specs.Settled.{LeastTableHolds, SettledIsLeast};
ghost use Rattle.summary_fix.specs.TwoRuns.{RoundsAgree, RoundsReturn};

/// In a valid module without floats, and with tests that hold exactly what callees write: what no round of rows leads an output of a function to, own or
/// imported, has no influence on it. Two invocations that return agree on it, and where one returns the other does, if no round leads completion to it.
pub fn law_two_runs()
    ensures agree { RoundsAgree }
    ensures returns { RoundsReturn }
{}

/// A table of a sealed module all of whose rows are rows of rounds, and to which one more round adds nothing (a fixed point), has just the rows of any round at
/// each output that has a row there; and what it leaves out of an output has no influence on it.
pub fn law_settled_is_least()
    ensures least { SettledIsLeast }
    ensures holds { LeastTableHolds }
{}
