//! What a reduction comes to.
use certs::{Combo, System};
use reductions::Trace;

/// What the steps come to: a system at which no rule finds anything more, or a combination of the system reached that shows that
/// it has no solution. `trace` has the steps.
#[derive(Drop)]
pub enum Reduction {
    Reduced { system: System, trace: Trace },
    Decided { combo: Combo, trace: Trace },
}
