//! Laws of elastic systems.
ghost use Rattle.relaxation.specs.Laws.{FewLaw, FormedLaw};

/// An elastic system of which no limits cross is well formed.
pub fn elastic_systems_are_formed()
    ensures { FormedLaw }
{}

/// An elastic system of a program within the limits has fewer than 2^31 variables.
pub fn elastic_systems_are_few()
    ensures { FewLaw }
{}
