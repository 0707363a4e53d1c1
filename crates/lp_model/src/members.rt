//! The constraints of a program, one by one.
ghost use Rattle.std.specs.Prelude.{◌≡◌};
ghost use Rattle.lp_model.specs.Members.{kind, place, side as side_of};

use std::cmp::Ordering;

/// A side of a constraint: it is at least its `Lo`, and at most its `Up`. The lower side comes first.
#[derive(Clone, Copy, PartialEq, Eq, PartialOrd, Ord)]
pub enum Side {
    Lo,
    Up,
}

/// One constraint: a row's lower side, its upper side, a column's lower bound, its upper bound, or its integrality mark.
///
/// Rows and columns are numbered from 0, in file order.
#[derive(Clone, Copy, PartialEq, Eq)]
pub enum Member {
    RowLo(u32),
    RowUp(u32),
    Lower(u32),
    Upper(u32),
    Whole(u32),
}

impl Member {
    /// The side on which it bounds its form; a mark, which asks for no number, is counted with the upper ones.
    pub fn side(self) -> Side
        ensures { result ≡ side_of self }
    {
        match self {
            Member::RowLo(_) | Member::Lower(_) => Side::Lo,
            Member::RowUp(_) | Member::Upper(_) | Member::Whole(_) => Side::Up,
        }
    }

    // The rank of its kind.
    fn kind(self) -> u32
        ensures { result ≡ kind self }
    {
        match self {
            Member::RowLo(_) | Member::RowUp(_) => 0,
            Member::Lower(_) => 1,
            Member::Upper(_) => 2,
            Member::Whole(_) => 3,
        }
    }

    // Its place in its kind.
    fn place(self) -> u64
        ensures { result ≡ place self }
    {
        match self {
            Member::RowLo(index) => 2 * index as u64,
            Member::RowUp(index) => 2 * index as u64 + 1,
            Member::Lower(index) | Member::Upper(index) | Member::Whole(index) => index as u64,
        }
    }
}

/// Member order: the sides of rows, row by row, the lower before the upper; lower bounds; upper bounds; marks.
impl Ord for Member {
    ghost use Rattle.std.specs.Ordering.{on, nat_cmp, then_cmp};
    ghost use Rattle.std.specs.Cmp.Rules.{comparing};
    ghost use Rattle.std.proofs.Common.{rules};
    ghost use Rattle.lp_model.specs.Members.{kind, place};

    ghost cmp = { then_cmp (on kind nat_cmp) (on place nat_cmp) };

    ghost total = { Prim.search (comparing, rules) };

    ghost matches_partial_cmp = { Prim.search (comparing, rules) };

    ghost matches_eq = { Prim.search (comparing, rules) };

    fn cmp(&self, other: &Member) -> Ordering {
        self.kind()
            .cmp(&other.kind())
            .then(self.place().cmp(&other.place()))
    }
}

impl PartialOrd for Member {
    ghost use Rattle.std.specs.Ordering.{on, nat_cmp, then_cmp, as_partial_cmp};
    ghost use Rattle.std.specs.Cmp.{partial_order_from_own_ties};
    ghost use Rattle.std.specs.Cmp.Rules.{comparing};
    ghost use Rattle.std.proofs.Common.{rules};
    ghost use Rattle.lp_model.specs.Members.{kind, place};

    ghost partial_cmp = { as_partial_cmp (then_cmp (on kind nat_cmp) (on place nat_cmp)) };

    ghost laws = { partial_order_from_own_ties (Prim.search (comparing, rules)) (Prim.search (comparing, rules)) };

    fn partial_cmp(&self, other: &Member) -> Option<Ordering> {
        Some(self.cmp(other))
    }
}
