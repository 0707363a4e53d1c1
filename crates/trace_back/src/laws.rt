//! Laws of the ways back of duals and rays, each the contract of a function that does nothing.
ghost use Rattle.trace_back.specs.Laws.{DualBackLaw, ObjectiveStaysLaw, OnceLaw, OptimalOnceLaw};
ghost use Rattle.trace_back.specs.Laws.{OrderLaw, PointValueLaw, RayBackLaw};

/// The system at the end of a reduction has an objective where the first one has.
pub fn objective_stays()
    ensures { ObjectiveStaysLaw }
{}

/// The objective's value at a point that comes back is what comes back of the last objective's value at the point: a
/// bound that a point reaches is reached by the point that comes back.
pub fn values_come_back()
    ensures { PointValueLaw }
{}

/// A dual of the system at the end comes back as a dual of the first one, with the bound that comes back.
pub fn duals_come_back()
    ensures { DualBackLaw }
{}

/// The shares that come back stand in their order.
pub fn shares_come_in_order()
    ensures { OrderLaw }
{}

/// No two of the shares that come back are of one limit.
pub fn shares_come_once()
    ensures { OnceLaw }
{}

/// The dual at the optimal end of an improve run takes no limit twice, so that it may come back.
pub fn optimal_ends_take_limits_once()
    ensures { OptimalOnceLaw }
{}

/// A ray of the system at the end comes back as a ray of the first one.
pub fn rays_come_back()
    ensures { RayBackLaw }
{}
