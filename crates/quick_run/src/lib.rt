//! Suggestions by runs on a factored basis that is kept from ask to ask: of points and of combinations, of how little of a set
//! must give way, of the cheapest weighting that refutes it, and of how far the objective can go. Nothing is promised of them but
//! their form, and that the runs keep to their budgets.
#![tactic(auto)]

mod alternative;
mod breakpoints;
mod candidates;
mod combinations;
mod descending;
mod extents;
mod guesses;
mod improving;
mod optima;
mod prices;
mod relaxing;
mod runs;
mod slopes;
mod suggestions;
mod widening;

pub use optima::{BestSuggestion, CheapestSuggestion, Costs, LeastSuggestion};
pub use runs::QuickRun;
pub use suggestions::{Guess, Suggest, Suggestion};
