//! Laws of statements.
ghost use Rattle.lp_statements.specs.Spelling.{StatementLaws};

/// What is read of a text is what is spelled there, by the cases of the format, and the statements of a text have no fault of
/// form exactly where the last one is `end`. It does nothing when it runs.
pub fn statement_laws()
    ensures { StatementLaws }
{}
