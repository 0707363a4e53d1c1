//! Checks of least weighted violations.
#![tactic(auto)]

mod least;
mod parts;
mod violations;
mod weights;

pub use least::{check_least, reached_is_least};
pub use parts::{check_total, check_weights, parts_show_least};
pub use violations::{check_violation, checked_violation, member_violation, rigid_set};
pub use weights::weight_on;
