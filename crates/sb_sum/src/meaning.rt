//! What sums mean.
ghost use Rattle.sb_sum.specs.Laws.{Adds};

/// A list of parts that is made of two comes to the sum of the first and so many times the second.
pub fn laws()
    ensures adds { Adds }
{}
