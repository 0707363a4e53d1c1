//! Laws of reductions, each the contract of a function that does nothing.
ghost use Rattle.reductions.specs.Laws.{DecidingLaw, NextLaw, OneReductionLaw, StepLaw, TraceLaw};

/// What comes next is found by a rule at a place, and no limits cross then.
pub fn next_is_found()
    ensures { NextLaw }
{}

/// The reduction of a system comes to one end, by one list of steps.
pub fn one_reduction()
    ensures { OneReductionLaw }
{}

/// A step leaves a formed system of as many columns and rows. What meets the system before it meets the one after; what meets the
/// one after, with the value that the step gives to a removed column, meets the one before; and weights on the limits of the one
/// after come back with the same sum for each column and for the limits. (Brearley, Mitra and Williams 1975; Andersen and
/// Andersen 1995.)
pub fn step_keeps_evidence()
    ensures { StepLaw }
{}

/// The same of all steps of a reduction: points and combinations of the reduced system come back as those of the first one.
pub fn reduction_keeps_evidence()
    ensures { TraceLaw }
{}

/// Where a rule decides, what it gives is a combination of the system reached: it has no solution.
pub fn deciding_is_combination()
    ensures { DecidingLaw }
{}
