//! Whether the nodes of a proof by branches are those of one tree that proves that no point satisfies a set.
#![tactic(auto)]

mod checks;
mod laws;
mod paths;

pub use checks::{Judged, check_proof, is_marked};
pub use laws::{
    answered_stops, box_bounds_trees, box_has_nodes, one_tree_end, stop_is_exact, verdict_is_exact,
};
pub use paths::go_on;
