//! A search on its own.
ghost use Rattle.std.specs.Prelude.{IfOk};
ghost use Rattle.report_text.specs.declared.report.Command.TheVariants.{Iis};
ghost use Rattle.report_printer.specs.Printing.{IsKnownAnswer};
ghost use Rattle.analysis.specs.Right.{Right, first_settings as settings_at_first};

use crate::answering::first_settings;
use crate::searching::search;
use lp_model::Model;
use quick_answers::Kept;
use report_text::{Answer, Method};
use std::alloc::{AllocError, Global};

/// The right answer to `iis` by a method, within the budgets at first, where memory allows.
///
/// # Errors
///
/// There is no memory for the search.
pub fn search_once(alloc: Global, model: &Model, method: Method) -> Result<Answer, AllocError>
    ensures right { IfOk result (Right model.now settings_at_first (Iis method)) }
    ensures known { IfOk result (IsKnownAnswer model.now) }
{
    let mut kept = Kept::new();
    search(alloc, model, first_settings().budgets, method, &mut kept)
}
