//! A run: what is asked for is fetched and read, and checked or answered; or a production plan is made and summarised.
ghost use Rattle.std.specs.Prelude.{◌≡◌, ◌⊎◌, ◌≤◌, ◌↔◌, ℕ, List, None, Some};
ghost use Rattle.iis_edge.specs.Causes.{KeepsCounts, Rose};
ghost use Rattle.iis_run.specs.Asked.{request_for};
ghost use Rattle.iis_run.specs.Words.{request_of};
ghost use Rattle.iis_run.specs.Run.{IsRun, HasFetchStop, IsModelRefused, IsTextRefused, IsAccepted, IsUnsettled, IsRefuted, IsBorneOut, IsReadBack, Settles};
ghost use Rattle.analysis.specs.NamesAreWords.{HasWords};
ghost use Rattle.iis_run.specs.Steps.{IsPlanned, IsQuietPlan, IsReady, IsScriptPlan, IsSecondPlan, Follows};

use crate::endings::Ending;
use crate::making::summarise;
use crate::plans::Plan;
use crate::reading::{check_file, fetch_model, fetch_script};
use crate::right_reports_are_accepted;
use crate::saying::say;
use crate::words::{self, Asked, Verb};
use analysis::analyse;
use cert_check::accepted_reports_are_true;
use iis_edge::{Shelf, Sink};
use lp_model::Model;
use std::alloc::Global;

// Fetches the script and plans the answers to it.
fn plan_answers<S: Shelf>(alloc: Global, model: Model, shelf: &mut S, name: &str) -> Plan
    requires words { HasWords model }
    ensures planned { IsScriptPlan model (S.file shelf.old name.now) (S.faults shelf.old name.now) (S.faults shelf.new name.now) result }
    ensures quiet { IsQuietPlan (S.faults shelf.old) (S.faults shelf.new) result }
    ensures ready { IsReady result }
    ensures counts { (n : List ℕ) → S.faults shelf.old n ≤ S.faults shelf.new n }
    ensures files { (n : List ℕ) → S.file shelf.new n ≡ S.file shelf.old n }
{
    match fetch_script(alloc, shelf, name) {
        Ok(script) => Plan::Answer(model, script),
        Err(ending) => Plan::Say(ending),
    }
}

// Fetches the second file: a report is checked, and the answers to a script are planned.
fn plan_second<S: Shelf>(alloc: Global, model: Model, shelf: &mut S, verb: Verb, name: &str) -> Plan
    requires words { HasWords model }
    ensures planned { IsSecondPlan verb model (S.file shelf.old name.now) (S.faults shelf.old name.now) (S.faults shelf.new name.now) result }
    ensures quiet { IsQuietPlan (S.faults shelf.old) (S.faults shelf.new) result }
    ensures ready { IsReady result }
    ensures counts { (n : List ℕ) → S.faults shelf.old n ≤ S.faults shelf.new n }
    ensures files { (n : List ℕ) → S.file shelf.new n ≡ S.file shelf.old n }
{
    match verb {
        Verb::Verify => Plan::Say(check_file(alloc, model, shelf, name)),
        Verb::Analyse => plan_answers(alloc, model, shelf, name),
    }
}

// Fetches two files and reads them, the model first, and checks a report.
fn plan_files<S: Shelf>(alloc: Global, shelf: &mut S, verb: Verb, model: &str, second: &str) -> Plan
    ensures planned { IsPlanned (S.file shelf.old) (S.faults shelf.old) (S.faults shelf.new)
        (Some (request_for verb model.now second.now)) result }
    ensures quiet { IsQuietPlan (S.faults shelf.old) (S.faults shelf.new) result }
    ensures ready { IsReady result }
    ensures counts { (n : List ℕ) → S.faults shelf.old n ≤ S.faults shelf.new n }
    ensures files { (n : List ℕ) → S.file shelf.new n ≡ S.file shelf.old n }
{
    let program = match fetch_model(alloc, shelf, model) {
        Ok(program) => program,
        Err(ending) => return Plan::Say(ending),
    };
    plan_second(alloc, program, shelf, verb, second)
}

// Decides what is to be done: files are fetched and read; for a production plan nothing is fetched.
fn decide<S: Shelf>(alloc: Global, words: &[String], shelf: &mut S) -> Plan
    ensures planned { IsPlanned (S.file shelf.old) (S.faults shelf.old) (S.faults shelf.new) (request_of words.now) result }
    ensures quiet { IsQuietPlan (S.faults shelf.old) (S.faults shelf.new) result }
    ensures ready { IsReady result }
    ensures counts { (n : List ℕ) → S.faults shelf.old n ≤ S.faults shelf.new n }
    ensures files { (n : List ℕ) → S.file shelf.new n ≡ S.file shelf.old n }
{
    let Some(asked) = words::parse(words) else {
        return Plan::Say(Ending::Usage);
    };
    match asked {
        Asked::Files {
            verb,
            model,
            second,
        } => plan_files(alloc, shelf, verb, model, second),
        Asked::Plan { periods } => Plan::Make(periods),
    }
}

// Says the ending, answers the commands, or summarises the production plan, and gives the status.
fn follow<W: Sink>(alloc: Global, plan: Plan, out: &mut W) -> u8
    requires { IsReady plan }
    ensures { Follows W.faults W.taken out.old out.new plan result }
{
    match plan {
        Plan::Say(ending) => say(alloc, ending, out),
        Plan::Answer(model, script) => analyse(alloc, model, &script, out),
        Plan::Make(periods) => summarise(alloc, periods, out),
    }
}

/// Does what the words ask for, writes its line or its report, and gives the status.
///
/// `words` are the command line without the program's name. The forms are `verify MODEL REPORT`, which checks a report and
/// writes one line; `analyse MODEL SCRIPT`, which answers the commands of a script in order and writes the report of the
/// answers; and `make N`, with N from 2 to 60 in decimal, which makes the production plan of N periods and answers
/// `iis sensitivity` of it within the budgets at first. Of two files the model is fetched and read first, and only a model
/// that reads lets the second file be fetched; `make` fetches none. The statuses are:
///
/// - 0: under `verify` the report is accepted: `accepted settled N unsettled 0` for its N entries. What each of them
///   claims of the model is true. Under `analyse` the whole report is written, and no answer is a stop, a refusal or
///   `not linear`. Under `make` four lines are written: `plan N`, `rows R`, `columns C` and `members M`, for the M members
///   of an irreducible set.
/// - 1: under `verify` the same with some entries that claim nothing, which are stops, `not linear` and `reduced`:
///   `accepted settled N unsettled M`. Under `analyse` the whole report is written, and some answer is a stop or `not linear`,
///   or says that an edit or an undo is refused. A report that is written whole is one that `verify` reads, where it is
///   within the limit of reports, and never rejects. Under `make` the search was stopped, and the lines of the stop are
///   written.
/// - 2: the words are none of the forms; the usage line.
/// - 3: `read fault WHICH`, only where the shelf's count of faults of that file's own name rose; or `too long WHICH`,
///   exactly where a told file is longer than its limit.
/// - 4: the put of the `accepted` line failed, or the put of a piece of the report or of what `make` writes.
/// - 5: `model refused line N KIND`, exactly where the told bytes declare no model: line N has the first fault, which is
///   of this kind. A name that ends with `.lp`, in any case of letters, is that of a model in the LP format, any other that of one in
///   the MPS format.
/// - 6: `report refused line N`, where no report on that model goes on with whole line N, the first such one; or
///   `report refused truncated`, where every whole line is right and the report ends too soon; or `script refused line
///   N`, where line N is the first of the script that is no command, or one too many.
/// - 7: want of memory; nothing is written, or under `analyse` perhaps the head and the first answers.
/// - 8: `rejected line N`, where line N of the report is the first that does not hold of the model; or `wide line N OP
///   LEFT RIGHT`, where the check of line N comes to an operation that is too wide, and no line before it fails.
pub fn run<S: Shelf, W: Sink>(alloc: Global, words: &[String], shelf: &mut S, out: &mut W) -> u8
    // Status 2 comes exactly where the words are none of the forms.
    ensures usage { (result ≡ 2) ↔ (request_of words.now ≡ None) }
    // Status 3 comes only where a fetch of one of the two names failed in this call, or where the told file is too long.
    ensures fetch_stop { result ≡ 3 → HasFetchStop (S.file shelf.old) (S.faults shelf.old) (S.faults shelf.new) (request_of words.now) }
    // Where some count of faults of the shelf has changed, the status is 3, or 7 for want of memory.
    ensures faulted { (result ≡ 3) ⊎ ((result ≡ 7) ⊎ KeepsCounts (S.faults shelf.old) (S.faults shelf.new)) }
    // Status 4 comes only where the sink failed in this call.
    ensures write_fault { result ≡ 4 → Rose (W.faults out.old) (W.faults out.new) }
    // Statuses 5, 6 and 8 come only where the told files call for them.
    ensures model_refused { result ≡ 5 → IsModelRefused (S.file shelf.old) (request_of words.now) }
    // After status 5 no count has changed: nothing was fetched but the model.
    ensures model_alone { result ≡ 5 → KeepsCounts (S.faults shelf.old) (S.faults shelf.new) }
    ensures text_refused { result ≡ 6 → IsTextRefused (S.file shelf.old) (request_of words.now) }
    ensures refuted { result ≡ 8 → IsRefuted (S.file shelf.old) (request_of words.now) }
    // Statuses 0 and 1 come only where a report is accepted, where all commands are answered, or where the summary of a production
    // plan is written: 1 where some entry is a stop, or some command is refused, or where the lines of a stop are written instead.
    ensures accepted { result ≡ 0 → IsAccepted (S.file shelf.old) W.faults W.taken out.old out.new (request_of words.now) }
    ensures unsettled { result ≡ 1 → IsUnsettled (S.file shelf.old) W.faults W.taken out.old out.new (request_of words.now) }
    // What an accepted report claims of the model is true.
    ensures borne_out { (result ≡ 0) ⊎ (result ≡ 1) → IsBorneOut (S.file shelf.old) (request_of words.now) }
    // What an analysis writes whole is a report on the model that `verify` reads, where it is within the limit of reports; and it
    // accepts all of it, with status 0 or 1, or says with status 8 on which line an operation is too wide. It rejects none.
    ensures read_back { (result ≡ 0) ⊎ (result ≡ 1) → IsReadBack (S.file shelf.old) W.taken out.old out.new (request_of words.now) }
    // No other status is answered.
    ensures statuses { result ≤ 8 }
    // Where no fetch and no put fails, what the told files call for is done, or what is written of a production plan is, or there
    // is want of memory.
    ensures settles { Settles S.file S.faults W.faults W.taken shelf.old shelf.new out.old out.new (request_of words.now) result }
    // The counts of faults never fall, and the told files stay.
    ensures fetch_counts { (n : List ℕ) → S.faults shelf.old n ≤ S.faults shelf.new n }
    ensures put_count { W.faults out.old ≤ W.faults out.new }
    ensures files { (n : List ℕ) → S.file shelf.new n ≡ S.file shelf.old n }
    // Each status comes with its cause, and its line, or a front of it after a fault, is what is written; or the answers are, or the
    // summary.
    ensures ran { IsRun S.file S.faults W.faults W.taken shelf.old shelf.new out.old out.new (request_of words.now) result }
{
    accepted_reports_are_true();
    right_reports_are_accepted();
    let plan = decide(alloc, words, shelf);
    follow(alloc, plan, out)
}
