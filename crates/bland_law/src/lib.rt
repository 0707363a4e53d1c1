//! The smallest-index rule ends: laws of settle and improve runs, each the contract of a function that does nothing, and a budget that
//! is never spent.
#![tactic(auto)]

ghost use Rattle.bland_law.specs.Ends.{
  FewPivotsLaw,
  ImproveNeverSpentLaw,
  ImproveNoBasisTwiceLaw,
  NeverSpentLaw,
  NoBasisTwiceLaw,
};

mod bounds;

pub use bounds::basis_bound;

/// A settle run makes fewer pivots than 3 to the number of the system's columns and rows (Bland 1977).
pub fn few_pivots()
    ensures { FewPivotsLaw }
{}

/// No basis comes twice in a settle run.
pub fn no_basis_twice()
    ensures { NoBasisTwiceLaw }
{}

/// A settle run with a budget of 3 to the number of the system's columns and rows never stops for want of a pivot.
pub fn never_spent()
    ensures { NeverSpentLaw }
{}

/// No basis comes twice in an improve run that begins at a basis with no variable outside its limits (Bland 1977).
pub fn improve_no_basis_twice()
    ensures { ImproveNoBasisTwiceLaw }
{}

/// An improve run from there with a budget of 3 to the number of the system's columns and rows never stops for want of a turn.
pub fn improve_never_spent()
    ensures { ImproveNeverSpentLaw }
{}
