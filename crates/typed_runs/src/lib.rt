//! Runs keep types: valid code from a fitting start never gets stuck, and leaves a fitting state.
#![tactic(auto)]

ghost use Rattle.typed_runs.specs.Kept.{RunsKeepTypes};
ghost use Rattle.typed_runs.specs.Start.{StartsFit};

/// Runs of valid code without floats keep types: each instruction, sequence, call and invocation that begins with values of its types, in a state that fits
/// the module, leaves values of its types in such a state, or stops by a trap or for want of turns. It never gets stuck.
pub fn law_runs_keep_types()
    ensures { RunsKeepTypes }
{}

/// The state that a valid module starts from, its segments written, fits the module.
pub fn law_starts_fit()
    ensures { StartsFit }
{}
