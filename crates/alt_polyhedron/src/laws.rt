//! Laws of systems of the alternative.
ghost use Rattle.alt_polyhedron.specs.Laws.{ApartLaw, BoundedLaw, FewLaw, FormedLaw};

/// No limits of a system of the alternative cross.
pub fn alternative_systems_are_apart()
    ensures { ApartLaw }
{}

/// A system of the alternative is well formed.
pub fn alternative_systems_are_formed()
    ensures { FormedLaw }
{}

/// That of members of a program within the limits has fewer than 2^31 variables.
pub fn alternative_systems_are_few()
    ensures { FewLaw }
{}

/// No ray raises the objective of that of members of a well-formed program, since no cost is below 0.
pub fn alternative_systems_are_bounded()
    ensures { BoundedLaw }
{}
