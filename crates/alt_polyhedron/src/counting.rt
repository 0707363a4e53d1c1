//! How often the members' variables count in the rows and in the objective of a system of the alternative.
ghost use Rattle.std.specs.Prelude.{◌≡◌, AllPairs, ◌<◌};
ghost use Rattle.rational.specs.Linear.{factor_of};
ghost use Rattle.lp_model.specs.Members.{column_form, form as form_of};
ghost use Rattle.certs.specs.Combination.{number_or_zero as or_zero, signed as signed_on};
ghost use Rattle.relaxation.specs.Origins.{IsMemberIn};
ghost use Rattle.alt_polyhedron.specs.Forms.{count_by};

use frac128::Frac;
use lp_model::{Member, Model, Side, Term};
use relaxation::{Costs, member_cost, member_number};

/// What a variable of a system of the alternative counts in: the row of a column, that of the numbers, or the objective.
#[derive(Clone, Copy)]
pub(crate) enum Form {
    Column(u32),
    Numbers,
    Costs,
}

/// How often the variable of a member counts there: by its factor of the column or its number, either negated for a lower
/// side, or by its cost with the sign of a sum that is to be made least.
pub(crate) fn count(model: &Model, member: Member, form: Form) -> Frac
    requires { IsMemberIn model.now member }
    ensures { result ≡ count_by model.now form member }
{
    match form {
        Form::Column(column) => signed(member.side(), form_factor(model, member, column)),
        Form::Numbers => signed(member.side(), number_or_zero(member_number(model, member))),
        Form::Costs => member_cost(model, member, Costs::Weights).negate(),
    }
}

// Negated on the lower side.
fn signed(side: Side, number: Frac) -> Frac
    ensures { result ≡ signed_on side number }
{
    match side {
        Side::Lo => number.negate(),
        Side::Up => number,
    }
}

// 0 where there is no number.
fn number_or_zero(number: Option<Frac>) -> Frac
    ensures { result ≡ or_zero number }
{
    match number {
        Some(number) => number,
        None => Frac::whole(0),
    }
}

// The factor of a column in a member's form, or 0.
fn form_factor(model: &Model, member: Member, column: u32) -> Frac
    requires { IsMemberIn model.now member }
    ensures { result ≡ factor_of (form_of model.now member) column }
{
    // That the terms ascend is told with the count.
    let _rows = model.row_count();
    match member {
        Member::RowLo(row) | Member::RowUp(row) => {
            term_factor(model.row(row).terms.as_slice(), column)
        }
        Member::Lower(own) | Member::Upper(own) | Member::Whole(own) => unit_factor(own, column),
    }
}

// The factor of a column in terms that ascend, or 0.
fn term_factor(terms: &[Term], column: u32) -> Frac
    requires { AllPairs (λ s t. s.column < t.column) terms.now }
    ensures { result ≡ factor_of terms.now column }
{
    for term in terms {
        if term.column == column {
            return term.factor;
        }
    }
    Frac::whole(0)
}

// 1 where the columns are one, else 0.
fn unit_factor(own: u32, column: u32) -> Frac
    ensures { result ≡ factor_of (column_form own) column }
{
    if own == column {
        Frac::whole(1)
    } else {
        Frac::whole(0)
    }
}
