//! Laws of what is defined here: what the sums of sizes mean.
ghost use Rattle.sb_linear.specs.Laws.{Forms, KeepsValue};

/// In the sum that a size stands for each value stands once, in order and not zero times, and each number has 128 bits.
/// It comes to the size's value, whatever the values that it speaks of.
pub fn laws()
    ensures forms { Forms }
    ensures value { KeepsValue }
{}
