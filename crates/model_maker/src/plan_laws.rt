//! What the text of a production plan declares.
ghost use Rattle.model_maker.specs.PlanLaws.{DeclaredLaw, ReadLaw};

/// The text of a plan declares the program of the plan, for each number of periods from 2 to 60.
pub fn plan_declares()
    ensures { DeclaredLaw }
{}

/// The text of a plan is short enough to be read, it declares the program of the plan and no other one, and its reading stops
/// for want of memory alone.
pub fn plan_is_read()
    ensures { ReadLaw }
{}
