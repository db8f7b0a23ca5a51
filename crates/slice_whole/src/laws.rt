//! What holds of slices.

ghost use Rattle.slice_whole.specs.Law.{SliceFollows};

/// Whenever a function returns, its slice returns from the same start, after no more turns and with the same events.
pub fn law_slice_follows()
    ensures { SliceFollows }
{}
