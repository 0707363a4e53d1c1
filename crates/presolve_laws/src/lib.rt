//! Laws of linear systems that their reduction makes easy, and of what is answered by them. Each is the contract of a
//! function that does nothing.
#![tactic(auto)]

ghost use Rattle.presolve_laws.specs.Laws.{HoldsLaw, OrderedLaw, StoppedLaw};

/// Where the run of a reduced system stops, the system before the steps is not eased: its reduction has one end, and the run
/// there has one.
pub fn stopped_is_not_eased()
    ensures { StoppedLaw }
{}

/// What is answered to a set without marks holds: a point that comes back satisfies each member of the set, and a combination
/// that comes back is one of the set.
pub fn presolved_answers_hold()
    ensures { HoldsLaw }
{}

/// The shares of each leaf that is answered stand in the order of members.
pub fn presolved_leaves_stand_in_order()
    ensures { OrderedLaw }
{}
