//! A law of the additive method.
ghost use Rattle.additive_filter.specs.Adding.{AddingLaw};

/// The additive method comes to what an early filter leaves.
pub fn adding_gives_early()
    ensures { AddingLaw }
{}
