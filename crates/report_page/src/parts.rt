//! The parts of a model by their numbers. What is not there has no name, no terms and no number.

use certs::member_number;
use frac128::Frac;
use lp_model::{Member, Model, Term, Weight};

/// The name of a column.
pub(crate) fn column_name(model: &Model, column: u32) -> &[u8] {
    if column < model.column_count() {
        return model.column_name(column);
    }
    &[]
}

/// The name of a row.
pub(crate) fn row_name(model: &Model, row: u32) -> &[u8] {
    if row < model.row_count() {
        return model.row_name(row);
    }
    &[]
}

/// The terms of a row.
pub(crate) fn row_terms(model: &Model, row: u32) -> &[Term] {
    if row < model.row_count() {
        return model.row(row).terms.as_slice();
    }
    &[]
}

/// The name that a member goes by.
pub(crate) fn member_name(model: &Model, member: Member) -> &[u8] {
    match member {
        Member::RowLo(index) => row_name(model, index),
        Member::RowUp(index) => row_name(model, index),
        Member::Lower(index) => column_name(model, index),
        Member::Upper(index) => column_name(model, index),
        Member::Whole(index) => column_name(model, index),
    }
}

/// The number that a member asks for, or 0.
pub(crate) fn asked(model: &Model, member: Member) -> Frac {
    match member_number(model, member) {
        Some(number) => number,
        None => Frac::whole(0),
    }
}

/// What a member weighs. A mark never gives way.
pub(crate) fn member_weight(model: &Model, member: Member) -> Weight {
    match member {
        Member::RowLo(row) if row < model.row_count() => model.row(row).lo_weight,
        Member::RowUp(row) if row < model.row_count() => model.row(row).up_weight,
        Member::Lower(column) if column < model.column_count() => {
            model.column(column).lower_weight
        }
        Member::Upper(column) if column < model.column_count() => {
            model.column(column).upper_weight
        }
        _ => Weight::Rigid,
    }
}
