//! Evidence: combinations, proofs, duals, rays, prices and filters, and what each shows.
#![tactic(auto)]

mod combinations;
mod evidence;
mod naming;
mod numbers;
mod oracles;
mod ordering;
mod packed;
mod paths;
mod plain_systems;
mod points;
mod solving;
mod sums;
mod systems;
mod tales;

pub use combinations::{check_combo, check_leaf};
pub use evidence::{
    Branch, Checked, Combo, CostNode, Dual, Node, Nodes, Point, Proof, Ray, Share, Shares, Source,
    Values,
};
pub use lp_model::{Member, MemberSet, Side};
pub use naming::{members_used, named_combo, node_combo};
pub use numbers::{is_less, is_member_there, member_number};
pub use oracles::{BranchAsk, CostAsk, Oracle, Stretcher};
pub use ordering::{are_in_order, stands_before};
pub use packed::{PackedPoint, PackedRay, PackedValues};
pub use paths::BranchPath;
pub use plain_systems::{node_system, plain_system};
pub use points::{check_point, checked, is_present};
pub use solving::{
    CostEnd, Irreducible, Listed, NodeEnd, Path, Site, SiteKind, Stop, Stretched, Verdict,
};
pub use sums::{add_shares, plus_product};
pub use systems::{Limits, System};
pub use tales::{CoreRecord, StopRecord, Tale, told_stop};
