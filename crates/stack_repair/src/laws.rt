//! Laws of the cut.

ghost use Rattle.stack_repair.specs.Law.{
  BodyIsShort,
  CutIsOne,
  CutIsShort,
  CutIsSmall,
  CutIsValid,
  CutNestsNoDeeper,
  PlacesHaveTypes,
  SliceIsSealed,
  SliceIsShort,
  SliceIsSpelled,
  SliceIsValid,
  ValidHasHeights,
};

/// A body of a valid module keeps to the heights of its stack.
pub fn law_valid_has_heights()
    ensures { ValidHasHeights }
{}

/// The places of every body have types.
pub fn law_places_have_types()
    ensures { PlacesHaveTypes }
{}

/// The cut of a body of a valid module is one, whichever types its places are given.
pub fn law_cut_is_one()
    ensures { CutIsOne }
{}

/// The cut of a body of a valid module is a valid body of the same type in the same module, for every set of kept nodes, and every set of present places
/// that holds the needed ones.
pub fn law_cut_is_valid()
    ensures { CutIsValid }
{}

/// The cut of any code has at most twice its positions, nests no deeper, and is at most three times as long in the canonical spelling.
pub fn law_cut_is_small()
    ensures short { CutIsShort }
    ensures nesting { CutNestsNoDeeper }
    ensures small { CutIsSmall }
{}

/// The module with the cut of one of its bodies appended is valid, and as each module that is answered has to be. Its canonical spelling is short, and spells
/// it and no other module.
pub fn law_slice_is_sealed()
    ensures valid { SliceIsValid }
    ensures body { BodyIsShort }
    ensures short { SliceIsShort }
    ensures spelled { SliceIsSpelled }
    ensures sealed { SliceIsSealed }
{}
