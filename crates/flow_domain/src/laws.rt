//! What holds of every kept set.

ghost use Rattle.flow_domain.specs.Law.{KeptIsClosed, KeptIsLeast, SlicedKeptIsClosed, SlicedKeptIsLeast};

/// The kept set lies in every set that the rules do not leave, whatever the rows of the functions called are.
pub fn law_kept_is_least()
    ensures tables { KeptIsLeast }
    ensures sliced { SlicedKeptIsLeast }
{}

/// A test that tells the kept set is such a set.
pub fn law_kept_is_closed()
    ensures tables { KeptIsClosed }
    ensures sliced { SlicedKeptIsClosed }
{}
