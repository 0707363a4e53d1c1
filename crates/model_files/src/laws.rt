//! Laws of files of models.
ghost use Rattle.model_files.specs.Formats.{OneMeaningLaw};

/// A file declares at most one program, which is well formed, and a file that declares one has no fault.
pub fn one_meaning()
    ensures { OneMeaningLaw }
{}
