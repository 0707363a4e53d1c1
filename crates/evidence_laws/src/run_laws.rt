//! Laws of tableaus and of runs.
ghost use Rattle.certs.specs.Ended.{BlockedLaw, FeasibleLaw};
ghost use Rattle.certs.specs.Named.{TranslationLaw};
ghost use Rattle.certs.specs.Runs.{OneEndLaw};
ghost use Rattle.certs.specs.PlainLaws.{PlainCutLaw, PlainFormedLaw, PlainPathLaw, PlainPointLaw};
ghost use Rattle.certs.specs.Tableau.{StartLaw, TableLaw};
ghost use Rattle.certs.specs.Turns.{FlipLaw, PivotLaw};
ghost use Rattle.evidence_laws.specs.Cores.{CoreLaw, WitnessLaw};
ghost use Rattle.evidence_laws.specs.Tables.{TermsLaw};

/// The tableau at the start is one of the system.
pub fn start_is_of_system()
    ensures { StartLaw }
{}

/// A tableau of a system, its rows as terms, is a table of it.
pub fn tableau_is_table()
    ensures { TermsLaw }
{}

/// A basis has one table.
pub fn one_table()
    ensures { TableLaw }
{}

/// After a pivot a tableau of a system is one of it again.
pub fn pivot_keeps_system()
    ensures { PivotLaw }
{}

/// After a nonbasic variable goes to its other limit a tableau of a system is one of it again.
pub fn flip_keeps_system()
    ensures { FlipLaw }
{}

/// Where no variable is outside its limits the values at a tableau are a solution of the system.
pub fn settled_is_solution()
    ensures { FeasibleLaw }
{}

/// Where nothing helps the first variable outside, its row of the table is a combination of the system.
pub fn blocked_is_combination()
    ensures { BlockedLaw }
{}

/// A settle run has one end.
pub fn one_end()
    ensures { OneEndLaw }
{}

/// A combination of the plain system of a set on a path stands for one of the set on the path.
pub fn combination_is_translated()
    ensures { TranslationLaw }
{}

/// Where no limits cross, the plain system of a set is well formed.
pub fn plain_is_formed()
    ensures { PlainFormedLaw }
{}

/// Where the run of a set's plain system settles, the point satisfies every member of the set but the marks.
pub fn plain_point_satisfies()
    ensures { PlainPointLaw }
{}

/// Where the run of a set's plain system settles, the point keeps the path.
pub fn plain_point_keeps_path()
    ensures { PlainPathLaw }
{}

/// Where limits of a set's plain system cross, or its run ends infeasible, what comes is a combination of the set.
pub fn plain_cut_refutes()
    ensures { PlainCutLaw }
{}

/// Where nothing helps a variable outside its limits, values meet all limits of its row but one, whichever one it is.
pub fn row_has_witnesses()
    ensures { WitnessLaw }
{}

/// Where no limits cross, the members of a set that its plain cut names are irreducible.
pub fn plain_core_is_irreducible()
    ensures { CoreLaw }
{}
