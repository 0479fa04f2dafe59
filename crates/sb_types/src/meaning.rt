//! What a table of types begins with, and laws of what is defined here.
ghost use Rattle.sb_core.specs.Beginning.{first_types};
ghost use Rattle.sb_types.specs.CompositeLaws.{Examples, IsOnly, WithBoth};
ghost use Rattle.sb_types.specs.Table.{IsTable, first_bases, first_pointers};

/// The types 0 to 12 with their sizes are a table.
pub fn beginning()
    ensures { IsTable first_types first_bases first_pointers }
{}

/// The composite of two types is compatible with both, and a table has no other one; and composites by hand.
pub fn composites()
    ensures both { WithBoth }
    ensures only { IsOnly }
    ensures examples { Examples }
{}
