//! Laws of what is defined here: what well-formedness and layout mean.
ghost use Rattle.sb_core.specs.Laws.{HasOneSort, HasNumberType, StaysInside, BeginsFormed, RoundsUp, FirstSizes, PadsStruct};
ghost use Rattle.sb_core.specs.Spellings.{SpelledOnce};

/// An expression has one sort, and a number a number type; control leaves a body by `return` alone; a core without
/// units is well formed; a member begins at the next multiple of its alignment; the layouts of the first types and of
/// a struct with padding; and each spelling of an annotation has one position.
pub fn laws()
    ensures one_sort { HasOneSort }
    ensures number_type { HasNumberType }
    ensures inside { StaysInside }
    ensures begins { BeginsFormed }
    ensures rounds { RoundsUp }
    ensures first { FirstSizes }
    ensures padded { PadsStruct }
    ensures spelled { SpelledOnce }
{}
