//! Laws of endings.
ghost use Rattle.iis_run.specs.Scripts.{OneEndingLaw};

/// Files that are told call for one ending, and a model and a script that reads for none.
pub fn one_ending()
    ensures { OneEndingLaw }
{}
