//! Laws of what is defined here.
ghost use Rattle.sb_typing.specs.Laws.{AgreesWithTable, Promotes, IsCommon, KeepsValues, KeepsWidth, Converts, HoldsConstant};
ghost use Rattle.sb_typing.specs.TypeLaws.{WithItself, BothWays, ByParts, TakesNumbers, AssignsPointer, AssignsNumber};

/// Bits and signs are those of the table of types; promotions keep values; the usual conversions keep the values of
/// both operands where they give a signed type, and give the greater width else; a converted number is one of its type;
/// and the type of a constant holds it.
pub fn laws()
    ensures table { AgreesWithTable }
    ensures promotes { Promotes }
    ensures common { IsCommon }
    ensures values { KeepsValues }
    ensures width { KeepsWidth }
    ensures converts { Converts }
    ensures constants { HoldsConstant }
{}

/// Laws of types: a type is compatible with itself, and with another whichever stands first; in a table in which parts
/// stand first compatible types are one type or have compatible parts; each operator takes two numbers, both in their
/// common type or for a shift each promoted; and a scalar value is assigned as it is to an object of its type.
pub fn type_laws()
    ensures itself { WithItself }
    ensures both_ways { BothWays }
    ensures parts { ByParts }
    ensures numbers { TakesNumbers }
    ensures pointer { AssignsPointer }
    ensures number { AssignsNumber }
{}
