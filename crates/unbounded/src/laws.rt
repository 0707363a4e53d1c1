//! Laws of duals and rays of plain systems.
ghost use Rattle.unbounded.specs.Programs.{ProgramDualLaw, ProgramRayLaw};

/// A dual of the plain system of a set is one of the set without its marks.
pub fn dual_of_program()
    ensures { ProgramDualLaw }
{}

/// A ray of the plain system of a set is an improving ray of the set without its marks.
pub fn ray_of_program()
    ensures { ProgramRayLaw }
{}
