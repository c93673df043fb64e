//! Laws over the definitions alone.

ghost use Rattle.ags_cells.specs.Laws.{OneType, FitsItsTypeCode};

/// A text is the code of one type at most.
pub fn one_type()
    ensures { OneType }
{}

/// What fits the type that a code is of is what fits the code.
pub fn fits_its_type_code()
    ensures { FitsItsTypeCode }
{}
