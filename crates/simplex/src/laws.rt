//! Laws of the ends of improve runs.
ghost use Rattle.simplex.specs.Duals.{DualBoundLaw, ObjectiveValueLaw, OptimalDualLaw};
ghost use Rattle.simplex.specs.Rays.{FreeRayLaw, RayStaysLaw};

/// Where nothing raises the objective, its row of the table is a dual of the system, and shows the objective's
/// value.
pub fn optimal_is_dual()
    ensures { OptimalDualLaw }
{}

/// The objective's value at a tableau is that of its form at the values there.
pub fn objective_is_valued()
    ensures { ObjectiveValueLaw }
{}

/// Where a variable raises the objective without end, the variables change along a ray of the system.
pub fn free_is_ray()
    ensures { FreeRayLaw }
{}

/// No solution of a system has a greater value of the objective than a dual's bound (weak duality).
pub fn dual_bounds()
    ensures { DualBoundLaw }
{}

/// A solution of a system that is moved along a ray of it stays one, while the objective rises.
pub fn ray_stays()
    ensures { RayStaysLaw }
{}
