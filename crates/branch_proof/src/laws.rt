//! Laws of the ends and of the sizes of trees.
ghost use Rattle.branch_proof.specs.Boxes.{BoxLaw, SizeLaw};
ghost use Rattle.branch_proof.specs.Ends.{AnsweredStopLaw, OneTreeEndLaw, StopLaw, VerdictLaw};

/// Trees of one set with the same pivots and the same nodes to take are one tree, with one end.
pub fn one_tree_end()
    ensures { OneTreeEndLaw }
{}

/// Where a tree answers with a verdict none stops.
pub fn verdict_is_exact()
    ensures { VerdictLaw }
{}

/// Where a tree answers with a stop each stops.
pub fn stop_is_exact()
    ensures { StopLaw }
{}

/// A stop that the reference answers is that of its run, or of its tree.
pub fn answered_stops()
    ensures { AnsweredStopLaw }
{}

/// Where the columns with marks stand in a box, a tree has fewer nodes than twice the box has points.
pub fn box_bounds_trees()
    ensures { SizeLaw }
{}

/// With so many nodes to take a tree never runs out of them.
pub fn box_has_nodes()
    ensures { BoxLaw }
{}
