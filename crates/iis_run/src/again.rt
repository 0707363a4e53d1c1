//! What the check of a report makes of right answers.
ghost use Rattle.iis_run.specs.Again.{AcceptedAgainLaw};

/// A report whose answers are right is never rejected by its own check: it is accepted, with all entries, or an operation on
/// some line is too wide. It does nothing when it runs.
pub fn right_reports_are_accepted()
    ensures { AcceptedAgainLaw }
{}
