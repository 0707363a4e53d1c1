//! The lines of points, and of members with their witnesses.

ghost use Rattle.std.specs.Prelude.{◌≡◌, ◌++◌, ◌∷◌, [], ◌<◌, OnOk, length, flat_map, zip, All};
ghost use Rattle.certs.specs.Checks.{IsSetOf};
ghost use Rattle.report_text.specs.Grammar.{value_phrases, point_phrases, witness_phrases, phrases_text};
ghost use Rattle.report_text.specs.Form.{IsWithinLimit};
ghost use Rattle.report_printer.specs.EvidenceNumbers.{HasValuesWithin, HasWitnessesWithin};
ghost use Rattle.report_printer.specs.Evidence.{IsKnownMember, IsKnownPoint};

use crate::lines::print_phrase;
use crate::words::push_line;
use certs::PackedPoint;
use frac128::{Exact, Frac};
use lp_model::{Member, Model};
use report_text::{MemberList, Phrase};
use std::alloc::AllocError;

// Appends the line of a column's value, where it is not 0.
fn print_nonzero(
    model: &Model,
    column: u32,
    value: Frac,
    into: &mut Vec<u8>,
) -> Result<(), AllocError>
    requires { column < length model.now.columns }
    ensures text { OnOk result (into.new.items ≡ into.old.items ++ phrases_text model.now (value_phrases column (value ∷ []))) }
    ensures within { IsWithinLimit value }
{
    // That the value is within the limit is told with its widening.
    let _value = value.widen();
    if value == Frac::whole(0) {
        return Ok(());
    }
    print_phrase(model, Phrase::Value(column, value), into)?;
    Ok(())
}

/// Appends the lines of values, one for each column: each that is not 0 has one.
pub(crate) fn print_values(
    model: &Model,
    values: &[Frac],
    into: &mut Vec<u8>,
) -> Result<(), AllocError>
    requires { length values.now ≡ length model.now.columns }
    ensures text { OnOk result (into.new.items ≡ into.old.items ++ phrases_text model.now (value_phrases 0 values.now)) }
    ensures within { OnOk result (All IsWithinLimit values.now) }
{
    for column in 0..model.column_count() {
        print_nonzero(model, column, values[column as usize], into)?;
    }
    Ok(())
}

/// Appends the lines of a point: each value that is not 0 has one.
pub(crate) fn print_point(
    model: &Model,
    point: &PackedPoint,
    into: &mut Vec<u8>,
) -> Result<(), AllocError>
    requires { IsKnownPoint model.now point.now }
    ensures text { OnOk result (into.new.items ≡ into.old.items ++ phrases_text model.now (point_phrases point.now)) }
    ensures within { OnOk result (HasValuesWithin point.now) }
{
    push_line(b"point", into)?;
    let point = point.unpacked(*into.allocator())?;
    print_values(model, point.values.as_slice(), into)
}

// Appends the lines of a member and its witness.
fn print_witness(
    model: &Model,
    member: Member,
    witness: &PackedPoint,
    into: &mut Vec<u8>,
) -> Result<(), AllocError>
    requires member { IsKnownMember model.now member }
    requires witness { IsKnownPoint model.now witness.now }
    ensures text { OnOk result (into.new.items ≡ into.old.items ++ phrases_text model.now (witness_phrases (member, witness.now))) }
    ensures within { OnOk result (HasValuesWithin witness.now) }
{
    print_phrase(model, Phrase::Member(member), into)?;
    print_point(model, witness, into)
}

/// Appends the lines of members with their witnesses, as far as there are both.
pub(crate) fn print_witnesses(
    model: &Model,
    set: &MemberList,
    witnesses: &[PackedPoint],
    into: &mut Vec<u8>,
) -> Result<(), AllocError>
    requires set { IsSetOf model.now set.now }
    requires points { All (IsKnownPoint model.now) witnesses.now }
    ensures text { OnOk result (into.new.items ≡ into.old.items ++ phrases_text model.now (flat_map witness_phrases (zip set.now.members witnesses.now))) }
    ensures within { OnOk result (HasWitnessesWithin set.now.members witnesses.now) }
{
    set.stands_in_order();
    let mut members = set.iter();
    for witness in witnesses {
        let Some(member) = members.next() else {
            return Ok(());
        };
        print_witness(model, member, witness, into)?;
    }
    Ok(())
}
