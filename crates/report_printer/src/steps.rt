//! The lines of a reduction, step by step.

ghost use Rattle.std.specs.Prelude.{◌≡◌, ◌++◌, OnOk, map, All};
ghost use Rattle.report_text.specs.Grammar.{phrase_line, reduced_phrases, phrases_text};
ghost use Rattle.report_printer.specs.EvidenceNumbers.{IsStepWithin, IsReducedWithin};
ghost use Rattle.report_printer.specs.Evidence.{ended, IsKnownStep};

use crate::lines::print_phrase;
use crate::words::push_line;
use lp_model::Model;
use reductions::ReduceStep;
use report_text::{Phrase, Reduced};
use std::alloc::AllocError;

// Appends the line of a step.
fn print_reduction(model: &Model, step: ReduceStep, into: &mut Vec<u8>) -> Result<(), AllocError>
    requires { IsKnownStep model.now step }
    ensures text { OnOk result (into.new.items ≡ into.old.items ++ ended (phrase_line model.now (Phrase.Reduction step))) }
    ensures within { OnOk result (IsStepWithin step) }
{
    print_phrase(model, Phrase::Reduction(step), into)?;
    Ok(())
}

// Appends the lines of steps.
fn print_steps(model: &Model, steps: &[ReduceStep], into: &mut Vec<u8>) -> Result<(), AllocError>
    requires { All (IsKnownStep model.now) steps.now }
    ensures text { OnOk result (into.new.items ≡ into.old.items ++ phrases_text model.now (map Phrase.Reduction steps.now)) }
    ensures within { OnOk result (All IsStepWithin steps.now) }
{
    for step in steps {
        print_reduction(model, *step, into)?;
    }
    Ok(())
}

/// Appends the lines of how far a program is reduced: the steps, and what is left.
pub(crate) fn print_reduced(
    model: &Model,
    reduced: &Reduced,
    into: &mut Vec<u8>,
) -> Result<(), AllocError>
    requires { All (IsKnownStep model.now) reduced.now.steps }
    ensures text { OnOk result (into.new.items ≡ into.old.items ++ phrases_text model.now (reduced_phrases reduced.now)) }
    ensures within { OnOk result (IsReducedWithin reduced.now) }
{
    push_line(b"reduced", into)?;
    print_steps(model, reduced.steps.as_slice(), into)?;
    print_phrase(model, Phrase::Left(reduced.rows, reduced.columns), into)?;
    Ok(())
}
