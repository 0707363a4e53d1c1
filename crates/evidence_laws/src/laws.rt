//! Laws of evidence: what combinations, proofs, duals, rays, prices and filters show, and what their checks answer.
ghost use Rattle.certs.specs.Alternative.{PriceLaw, SupportLaw};
ghost use Rattle.certs.specs.Bound.{BoundLaw, RayLaw, ValidBoundLaw};
ghost use Rattle.certs.specs.Checks.{BoundCheckLaw, BoundNoLaw, CombinationCheckLaw, CombinationNoLaw, LeastCheckLaw, LeastNoLaw, PointCheckLaw, PointNoLaw, PriceCheckLaw, PriceNoLaw, RayCheckLaw, RayNoLaw, RefutedLaw, SatisfiableLaw, UnsatisfiableLaw, WideLaw, YesLaw};
ghost use Rattle.certs.specs.Combination.{CombinationLaw, FurtherColumnsLaw};
ghost use Rattle.certs.specs.CostTrees.{CostsLaw};
ghost use Rattle.certs.specs.Exclusions.{ListingLaw, ReplayLaw, RestsLaw};
ghost use Rattle.certs.specs.Filter.{EarlyLaw, EarlyMeansLaw, EarlyTestLaw, LateGroupsLaw, LateLaw, LateMeansLaw, LateTestLaw, OneEarlyLaw, OneLateLaw, RoundsLaw};
ghost use Rattle.certs.specs.Proof.{OneTreeLaw, ProofLaw};
ghost use Rattle.certs.specs.System.{CheapestLaw, LastTableLaw, NoWeightingLaw};
ghost use Rattle.certs.specs.Violation.{LeastLaw, LeastPointLaw};
ghost use Rattle.evidence_laws.specs.Weighed.{TotalLaw, WeighedLaw};

/// Where there is a combination, nothing satisfies the set.
pub fn combination_refutes()
    ensures { CombinationLaw }
{}

/// What has a proof is unsatisfiable.
pub fn proof_refutes()
    ensures { ProofLaw }
{}

/// The columns past the last have no part in a combination.
pub fn further_columns()
    ensures { FurtherColumnsLaw }
{}

/// The nodes of a proof tell its tree.
pub fn nodes_tell_the_tree()
    ensures { OneTreeLaw }
{}

/// A dual's total is at most every weighted violation.
pub fn least_is_bounded()
    ensures { LeastLaw }
{}

/// What a cost tree shows is at most every weighted violation.
pub fn costs_are_bounded()
    ensures { CostsLaw }
{}

/// Whatever the weights, a dual's total is at most every violation that is weighed so.
pub fn weighed_is_bounded()
    ensures { WeighedLaw }
{}

/// Beside enforced members, each other one with weight 1, a dual's total is at most every total violation.
pub fn total_is_bounded()
    ensures { TotalLaw }
{}

/// A point that reaches a dual's total is least.
pub fn reached_is_least()
    ensures { LeastPointLaw }
{}

/// Nothing that satisfies the set has a better value than a dual's bound.
pub fn bound_is_kept()
    ensures { BoundLaw }
{}

/// A dual's bound is valid.
pub fn bound_is_valid()
    ensures { ValidBoundLaw }
{}

/// A point and an improving ray leave every bound behind.
pub fn ray_is_unbounded()
    ensures { RayLaw }
{}

/// No weighting costs less than what has a price.
pub fn price_is_least()
    ensures { PriceLaw }
{}

/// A weighting of which values meet all shares but one, whichever one it is, has irreducible members.
pub fn support_is_irreducible()
    ensures { SupportLaw }
{}

/// The support at the last table of the alternative system is irreducible, and the point of each member's row satisfies the
/// others.
pub fn last_table_is_irreducible()
    ensures { LastTableLaw }
{}

/// The objective's row of the last table is a price, and the support is cheapest.
pub fn last_table_is_cheapest()
    ensures { CheapestLaw }
{}

/// What shows that a set has no weighting gives a point of it, by its weights on the columns' rows.
pub fn no_weighting_gives_point()
    ensures { NoWeightingLaw }
{}

/// What a late filter leaves of unsatisfiable groups is irreducible.
pub fn late_groups()
    ensures { LateGroupsLaw }
{}

/// What a check answers as wide is the first wide operation of its steps, and such an operation is the answer.
pub fn wide_is_first()
    ensures { WideLaw }
{}

/// A check says yes exactly where nothing is wide and every test passes.
pub fn yes_is_all_passed()
    ensures { YesLaw }
{}

/// A point that the check takes satisfies the set.
pub fn checked_point()
    ensures { PointCheckLaw }
{}

/// What the check takes is a combination.
pub fn checked_combination()
    ensures { CombinationCheckLaw }
{}

/// Values that the check of a point takes show that some point satisfies the set.
pub fn taken_values_satisfy()
    ensures { SatisfiableLaw }
{}

/// Where the check takes a combination, nothing on the path satisfies the set.
pub fn taken_combination_refutes()
    ensures { RefutedLaw }
{}

/// Where it takes one without a path, no point satisfies the set.
pub fn taken_combination_is_unsatisfiable()
    ensures { UnsatisfiableLaw }
{}

/// What the check takes is a bound's dual.
pub fn checked_bound()
    ensures { BoundCheckLaw }
{}

/// What the check takes is a dual of the least violation.
pub fn checked_least()
    ensures { LeastCheckLaw }
{}

/// What the check takes is an improving ray.
pub fn checked_ray()
    ensures { RayCheckLaw }
{}

/// What the check takes is a price.
pub fn checked_price()
    ensures { PriceCheckLaw }
{}

/// The check never says no of a point that satisfies the set.
pub fn refused_point()
    ensures { PointNoLaw }
{}

/// The check never says no of a combination.
pub fn refused_combination()
    ensures { CombinationNoLaw }
{}

/// The check never says no of a bound's dual.
pub fn refused_bound()
    ensures { BoundNoLaw }
{}

/// The check never says no of a dual of the least violation.
pub fn refused_least()
    ensures { LeastNoLaw }
{}

/// The check never says no of an improving ray.
pub fn refused_ray()
    ensures { RayNoLaw }
{}

/// The check never says no of a price.
pub fn refused_price()
    ensures { PriceNoLaw }
{}

/// A late filter leaves one list.
pub fn one_late()
    ensures { OneLateLaw }
{}

/// An early filter leaves one list.
pub fn one_early()
    ensures { OneEarlyLaw }
{}

/// What a late filter leaves of an unsatisfiable set is irreducible.
pub fn late_is_irreducible()
    ensures { LateLaw }
{}

/// What an early filter leaves of an unsatisfiable set is irreducible.
pub fn early_is_irreducible()
    ensures { EarlyLaw }
{}

/// Where no node of an exclusion tree is left to take, the sets found are all irreducible parts, each once.
pub fn listing_is_complete()
    ensures { ListingLaw }
{}

/// The rests of an exclusion tree are those that its sets ask for, and each can be satisfied.
pub fn listing_is_replayed()
    ensures { ReplayLaw }
{}

/// Where all rests that irreducible parts ask for can be satisfied, they are all irreducible parts.
pub fn rests_leave_none_out()
    ensures { RestsLaw }
{}

/// What a late filter may ask for is a front of what it leaves, with a back of the set.
pub fn late_tests()
    ensures { LateTestLaw }
{}

/// What an early filter may ask for is a front of the set, with a back of what it leaves.
pub fn early_tests()
    ensures { EarlyTestLaw }
{}

/// Rounds are at most one more than the members of an unsatisfiable part.
pub fn rounds_are_few()
    ensures { RoundsLaw }
{}

/// What is late: a member stays exactly where the kept members before it, with all after it, can be satisfied.
pub fn late_means()
    ensures { LateMeansLaw }
{}

/// What is early: a member stays exactly where all before it, with the kept members after it, can be satisfied.
pub fn early_means()
    ensures { EarlyMeansLaw }
{}
