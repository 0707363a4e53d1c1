//! Reduction of linear systems before they are solved: [`reduce`] makes the steps that the rules of crate `reductions`
//! find, and answers the system at which no rule finds anything more, or a combination that shows that the system
//! reached has no solution.
#![tactic(auto)]

mod eliminating;
mod limits;
mod looking;
mod making;
mod plans;
mod quiet;
mod reducing;
mod reduction;
mod row_rules;
mod stages;
mod substitution;
mod sum_rules;
mod sums;

pub use reducing::reduce;
pub use reduction::Reduction;
