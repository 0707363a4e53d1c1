//! What is written of a production plan: its size, and how many members of it contradict one another.
ghost use Rattle.std.specs.Prelude.{◌≡◌, IfOk};
ghost use Rattle.model_maker.specs.PlanText.{IsPlanSize};
ghost use Rattle.model_maker.specs.PlanProgram.{plan_program};
ghost use Rattle.model_maker.specs.Making.{IsPlanText};
ghost use Rattle.report_printer.specs.Printing.{IsKnownAnswer};
ghost use Rattle.iis_run.specs.Plans.{answer_text, summary_text, told_text, told_status, IsMade};
ghost use Rattle.iis_run.specs.Steps.{IsTold};

use crate::printing::print_count;
use crate::saying::put_line;
use analysis::search_once;
use iis_edge::{PutFault, Sink};
use lp_model::Model;
use lp_reader::read_lp;
use model_maker::{MakeStop, make, plan_is_read, plan_is_unsatisfiable};
use report_printer::print_answer;
use report_text::{Answer, Command, Core, Method};
use std::alloc::{AllocError, Global};
use text_fields::ReadFault;

// The text of a plan, of which there may be so many periods.
fn plan_text(alloc: Global, periods: u32) -> Result<Vec<u8>, AllocError>
    requires { IsPlanSize periods }
    ensures { IfOk result (λ text. IsPlanText periods text.items) }
{
    match make(alloc, periods) {
        Ok(text) => Ok(text),
        Err(MakeStop::Memory) => Err(AllocError),
        Err(MakeStop::OutOfRange) => unreachable!(),
    }
}

// The plan, read from its text.
fn read_plan(alloc: Global, periods: u32) -> Result<Model, AllocError>
    requires { IsPlanSize periods }
    ensures { IfOk result (λ model. model ≡ plan_program periods) }
{
    plan_is_read();
    let text = plan_text(alloc, periods)?;
    match read_lp(alloc, text.as_slice()) {
        Ok(model) => Ok(model),
        Err(ReadFault::Memory) => Err(AllocError),
        Err(ReadFault::Stop(_)) => unreachable!(),
    }
}

// The lines of the plan's size and of the members of an irreducible set of it.
fn print_summary(
    alloc: Global,
    periods: u32,
    model: &Model,
    core: &Core,
) -> Result<Vec<u8>, AllocError>
    requires { model.now ≡ plan_program periods }
    ensures { IfOk result (λ text. text.items ≡ summary_text periods core.now) }
{
    let mut text = Vec::new(alloc);
    print_count(b"plan", u64::from(periods), &mut text)?;
    print_count(b"rows", u64::from(model.row_count()), &mut text)?;
    print_count(b"columns", u64::from(model.column_count()), &mut text)?;
    print_count(b"members", core.members.count(), &mut text)?;
    Ok(text)
}

// The lines of an answer about the plan, as a report has them behind the command.
fn print_lines(
    alloc: Global,
    periods: u32,
    model: &Model,
    answer: &Answer,
) -> Result<Vec<u8>, AllocError>
    requires plan { model.now ≡ plan_program periods }
    requires known { IsKnownAnswer model.now answer.now }
    ensures { IfOk result (λ text. text.items ≡ answer_text periods answer.now) }
{
    let mut text = Vec::new(alloc);
    let command = Command::Iis(Method::Sensitivity);
    print_answer(model, &command, answer, &mut text)?;
    Ok(text)
}

// What is written of an answer about the plan.
fn print_told(
    alloc: Global,
    periods: u32,
    model: &Model,
    answer: &Answer,
) -> Result<Vec<u8>, AllocError>
    requires plan { model.now ≡ plan_program periods }
    requires known { IsKnownAnswer model.now answer.now }
    ensures { IfOk result (λ text. text.items ≡ told_text periods answer.now) }
{
    match answer {
        Answer::Irreducible(core) => print_summary(alloc, periods, model, core),
        _ => print_lines(alloc, periods, model, answer),
    }
}

// The status that an answer gives: 1 where it is a stop.
fn status(answer: &Answer) -> u8
    ensures { result ≡ told_status answer.now }
{
    match answer {
        Answer::Stopped(_) => 1,
        _ => 0,
    }
}

// What is to be written of a plan, and the status that it gives.
fn tell(alloc: Global, periods: u32) -> Result<(Vec<u8>, u8), AllocError>
    requires { IsPlanSize periods }
    ensures { IfOk result (λ told. IsTold periods told.0.items told.1) }
{
    plan_is_unsatisfiable();
    let model = read_plan(alloc, periods)?;
    let answer = search_once(alloc, &model, Method::Sensitivity)?;
    let text = print_told(alloc, periods, &model, &answer)?;
    Ok((text, status(&answer)))
}

/// Makes a plan and reads it, runs the sensitivity filter on it within the budgets at first, writes the plan's size and how
/// many members the irreducible set has, and gives status 0. Where the filter is stopped, the lines of that answer are written,
/// with status 1. Status 4 comes where the put fails, and 7 for want of memory, with nothing written.
pub(crate) fn summarise<W: Sink>(alloc: Global, periods: u32, out: &mut W) -> u8
    requires { IsPlanSize periods }
    ensures { IsMade W.faults W.taken out.old out.new periods result }
{
    let Ok((text, status)) = tell(alloc, periods) else {
        return 7;
    };
    match put_line(out, text.as_slice()) {
        Ok(()) => status,
        Err(PutFault) => 4,
    }
}
