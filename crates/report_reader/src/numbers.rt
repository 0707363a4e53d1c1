//! Lines with numbers alone.
ghost use Rattle.std.specs.Prelude.{◌≡◌};
ghost use Rattle.report_reader.specs.Kinds.{IsCursor, IsRead};
ghost use Rattle.report_reader.specs.Things.{found, number as one_number, number_of, rounds as one_count, rounds_of, turn as one_turn, turn_of, left as what_is_left, left_of, operation as one_operation, operation_of, objective as told_objective};

use crate::cursor::Cursor;
use crate::reader::ReportStop;
use frac128::{Frac, Op, Wide};
use lp_model::Model;
use report_text::{Phrase, StopPhrase};
use std::alloc::Global;

/// What a line of one fraction tells.
#[derive(Clone, Copy, PartialEq, Eq)]
pub(crate) enum Number {
    Objective,
    Bound,
    Total,
}

// The fraction that the next line tells.
fn number_in(number: Number, ahead: &Result<Phrase, ReportStop>) -> Option<Frac>
    ensures { result ≡ found (number_of number) ahead.now }
{
    match number {
        Number::Objective => match ahead {
            Ok(Phrase::Objective(value)) => Some(*value),
            _ => None,
        },
        Number::Bound => match ahead {
            Ok(Phrase::Bound(value)) => Some(*value),
            _ => None,
        },
        Number::Total => match ahead {
            Ok(Phrase::Total(value)) => Some(*value),
            _ => None,
        },
    }
}

// How many rounds the next line tells.
fn rounds_in(ahead: &Result<Phrase, ReportStop>) -> Option<u64>
    ensures { result ≡ found rounds_of ahead.now }
{
    match ahead {
        Ok(Phrase::Rounds(rounds)) => Some(*rounds),
        _ => None,
    }
}

// The turn that the next line tells.
fn turn_in(ahead: &Result<Phrase, ReportStop>) -> Option<u64>
    ensures { result ≡ found turn_of ahead.now }
{
    match ahead {
        Ok(Phrase::Stop(StopPhrase::Step(turn))) => Some(*turn),
        _ => None,
    }
}

// How many rows and columns are left, as the next line tells.
fn left_in(ahead: &Result<Phrase, ReportStop>) -> Option<(u64, u64)>
    ensures { result ≡ found left_of ahead.now }
{
    match ahead {
        Ok(Phrase::Left(rows, columns)) => Some((*rows, *columns)),
        _ => None,
    }
}

// The operation that the next line tells.
fn operation_in(ahead: &Result<Phrase, ReportStop>) -> Option<Wide>
    ensures { result ≡ found operation_of ahead.now }
{
    match ahead {
        Ok(Phrase::Stop(StopPhrase::Operation(wide))) => Some(*wide),
        _ => None,
    }
}

/// A fraction, which is to stand next.
pub(crate) fn read_number(
    alloc: Global,
    model: &Model,
    cursor: &mut Cursor<'_>,
    number: Number,
) -> Frac
    requires { IsCursor model.now cursor.old }
    ensures read { IsRead model.now (one_number number) cursor.old cursor.new result }
    ensures stands { IsCursor model.now cursor.new }
{
    let value = number_in(number, &cursor.ahead);
    cursor.take(alloc, model, value, Frac::whole(0))
}

/// How many rounds were made, which is to stand next.
pub(crate) fn read_rounds(alloc: Global, model: &Model, cursor: &mut Cursor<'_>) -> u64
    requires { IsCursor model.now cursor.old }
    ensures read { IsRead model.now one_count cursor.old cursor.new result }
    ensures stands { IsCursor model.now cursor.new }
{
    let rounds = rounds_in(&cursor.ahead);
    cursor.take(alloc, model, rounds, 0)
}

/// The number of a turn, which is to stand next.
pub(crate) fn read_turn(alloc: Global, model: &Model, cursor: &mut Cursor<'_>) -> u64
    requires { IsCursor model.now cursor.old }
    ensures read { IsRead model.now one_turn cursor.old cursor.new result }
    ensures stands { IsCursor model.now cursor.new }
{
    let turn = turn_in(&cursor.ahead);
    cursor.take(alloc, model, turn, 0)
}

/// How many rows and columns are left, which is to stand next.
pub(crate) fn read_left(alloc: Global, model: &Model, cursor: &mut Cursor<'_>) -> (u64, u64)
    requires { IsCursor model.now cursor.old }
    ensures read { IsRead model.now what_is_left cursor.old cursor.new result }
    ensures stands { IsCursor model.now cursor.new }
{
    let left = left_in(&cursor.ahead);
    cursor.take(alloc, model, left, (0, 0))
}

/// An operation, which is to stand next.
pub(crate) fn read_operation(alloc: Global, model: &Model, cursor: &mut Cursor<'_>) -> Wide
    requires { IsCursor model.now cursor.old }
    ensures read { IsRead model.now one_operation cursor.old cursor.new result }
    ensures stands { IsCursor model.now cursor.new }
{
    let wide = operation_in(&cursor.ahead);
    let none = Wide {
        op: Op::Plus,
        left: Frac::whole(0),
        right: Frac::whole(0),
    };
    cursor.take(alloc, model, wide, none)
}

/// The objective's value, where it is told.
pub(crate) fn read_objective(alloc: Global, model: &Model, cursor: &mut Cursor<'_>) -> Option<Frac>
    requires { IsCursor model.now cursor.old }
    ensures read { IsRead model.now told_objective cursor.old cursor.new result }
    ensures stands { IsCursor model.now cursor.new }
{
    let value = number_in(Number::Objective, &cursor.ahead)?;
    cursor.pass(alloc, model, true);
    Some(value)
}
