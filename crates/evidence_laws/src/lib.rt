//! Laws of evidence, of tableaus and of runs, each the contract of a function that does nothing.
#![tactic(auto)]

mod laws;
mod run_laws;

pub use laws::{
    bound_is_kept, bound_is_valid, checked_bound, checked_combination, checked_least,
    checked_point, checked_price, checked_ray, combination_refutes, costs_are_bounded,
    early_is_irreducible, early_means, early_tests, further_columns, last_table_is_cheapest,
    last_table_is_irreducible, late_groups, late_is_irreducible, late_means, late_tests,
    least_is_bounded, listing_is_complete, listing_is_replayed, no_weighting_gives_point,
    nodes_tell_the_tree, one_early, one_late, price_is_least, proof_refutes, ray_is_unbounded,
    reached_is_least, refused_bound, refused_combination, refused_least, refused_point,
    refused_price, refused_ray, rests_leave_none_out, rounds_are_few, support_is_irreducible,
    taken_combination_is_unsatisfiable, taken_combination_refutes, taken_values_satisfy,
    total_is_bounded, weighed_is_bounded, wide_is_first, yes_is_all_passed,
};
pub use run_laws::{
    blocked_is_combination, combination_is_translated, flip_keeps_system, one_end, one_table,
    pivot_keeps_system, plain_core_is_irreducible, plain_cut_refutes, plain_is_formed,
    plain_point_keeps_path, plain_point_satisfies, row_has_witnesses, settled_is_solution,
    start_is_of_system, tableau_is_table,
};
