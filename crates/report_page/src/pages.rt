//! The page of a report.
ghost use Rattle.std.specs.Prelude.{◌≡◌, ◌++◌, [], All, OnOk};
ghost use Rattle.report_text.specs.Form.{IsCommand};
ghost use Rattle.cert_check.specs.Trials.{settled_count, unsettled_count};
ghost use Rattle.report_page.specs.Pieces.{IsClosed, IsMarkedUp, IsPage, IsSessionOf};

use crate::answers::{write_answer, write_command};
use crate::parts::column_name;
use crate::pieces::Piece::{Count, Fixed, Text};
use crate::pieces::{write, write_fixed};
use crate::verdicts::write_verdict;
use cert_check::settles;
use lp_model::{Model, Note};
use report_text::{CommandSession, Entry, Report};
use std::alloc::AllocError;

/// The head of each page, with its style sheet, and the title in its body.
const HEAD: &str = "\
    <!doctype html>\n\
    <html lang=en>\n\
    <head>\n\
    <meta charset=utf-8>\n\
    <meta name=viewport content='width=device-width, initial-scale=1'>\n\
    <title>What the model asks for</title>\n\
    <style>\n\
    :root{color-scheme:light dark;--ink:#1c2330;--soft:#566073;--paper:#fff;--panel:#f3f5f8;--line:#d4d9e2;--mark:#a3360b}\n\
    @media(prefers-color-scheme:dark){:root{--ink:#e6e9ef;--soft:#a9b2c1;--paper:#14171c;--panel:#1e242c;--line:#3a424f;--mark:#ff9d6b}}\n\
    body{margin:0 auto;max-width:46rem;padding:1rem;background:var(--paper);color:var(--ink);font:1rem/1.5 system-ui,sans-serif}\n\
    h1{font-size:1.5rem;line-height:1.2}h2{margin-top:2.5rem;font-size:1.15rem;border-top:1px solid var(--line);padding-top:1rem}\n\
    code{font:.95em ui-monospace,monospace;overflow-wrap:anywhere}p.lead{font-size:1.15rem;color:var(--mark)}\n\
    ol,ul{padding-left:2rem}li{margin:.5rem 0;padding:.5rem .75rem;background:var(--panel);border-left:3px solid var(--line)}\n\
    li b{display:block}li p{margin:.25rem 0 0}p.without,span.times,summary{color:var(--soft)}span.times{white-space:nowrap}\n\
    ul.cases{padding-left:0;list-style:none}ul.cases li{padding:.25rem 0 .25rem .5rem}details{overflow-x:auto}\n\
    table{border-collapse:collapse;font-variant-numeric:tabular-nums}caption{text-align:left;font-weight:600}div.wide{overflow-x:auto;margin-bottom:1rem}\n\
    th,td{padding:.2rem .15rem;border-bottom:1px solid var(--line);text-align:right}th:first-child{text-align:left}table{font-size:.8em}\n\
    ul.verdicts{padding:0;list-style:none}span.alone{display:block;font-weight:600}a{color:inherit}p.checked{color:var(--soft)}\n\
    dl.bars dd{margin:0 0 .5rem;height:.6rem;border:1px solid var(--soft);background:var(--line)}\n\
    @media print{body{max-width:none}li{break-inside:avoid}}\n\
    </style>\n\
    </head>\n\
    <body>\n\
    <main>\n\
    <h1>What the model asks for</h1>\n";

// How many entries are settled.
fn count_settled(entries: &[Entry]) -> u64
    ensures { result ≡ settled_count entries.now }
{
    let mut count: u64 = 0;
    for entry in entries {
        if settles(&entry.answer) {
            count += 1;
        }
    }
    count
}

// How many entries are not settled.
fn count_unsettled(entries: &[Entry]) -> u64
    ensures { result ≡ unsettled_count entries.now }
{
    entries.len() as u64 - count_settled(entries)
}

// Writes how many entries are settled, and how many are not.
fn write_counts(entries: &[Entry], into: &mut Vec<u8>) -> Result<(), AllocError>
    ensures { OnOk result (IsMarkedUp into.old.items into.new.items) }
{
    write(
        &[
            Fixed("<p class=checked>Checked against the model. Answers that hold: "),
            Count(count_settled(entries)),
            Fixed("; without an answer that is checked: "),
            Count(count_unsettled(entries)),
            Fixed(".</p>\n"),
        ],
        into,
    )
}

// The column of a note.
fn column_of(note: Note) -> u32 {
    match note {
        Note::LowerRemoved(column) | Note::LowerKept(column) => column,
    }
}

// What is noted.
fn noted(note: Note) -> &'static str
    ensures { IsClosed result.now }
{
    match note {
        Note::LowerRemoved(_) => {
            ": its upper bound is below 0, and the model was read so that it has no lower bound</li>\n"
        }
        Note::LowerKept(_) => {
            ": its upper bound is below 0, and the model was read so that it keeps its lower bound 0</li>\n"
        }
    }
}

// Writes a note.
fn write_note(model: &Model, note: Note, into: &mut Vec<u8>) -> Result<(), AllocError>
    ensures { OnOk result (IsMarkedUp into.old.items into.new.items) }
{
    write(
        &[Fixed("<li>"), Text(column_name(model, column_of(note)))],
        into,
    )?;
    write_fixed(noted(note), into)
}

// Writes the notes, where there are any.
fn write_notes(model: &Model, notes: &[Note], into: &mut Vec<u8>) -> Result<(), AllocError>
    ensures { OnOk result (IsMarkedUp into.old.items into.new.items) }
{
    if notes.is_empty() {
        return Ok(());
    }
    write_fixed("<ul>\n", into)?;
    for note in notes {
        write_note(model, *note, into)?;
    }
    write_fixed("</ul>\n", into)
}

// Writes a command and its answer.
fn write_entry(model: &Model, entry: &Entry, into: &mut Vec<u8>) -> Result<(), AllocError>
    ensures { OnOk result (IsMarkedUp into.old.items into.new.items) }
{
    write(
        &[
            Fixed("<section id=line-"),
            Count(u64::from(entry.line)),
            Fixed(">\n<h2>"),
        ],
        into,
    )?;
    write_command(&entry.command, into)?;
    write_fixed("</h2>\n", into)?;
    write_answer(model, &entry.answer, into)?;
    write_fixed("</section>\n", into)
}

// Writes entries, each of the program as the commands before it edited it.
fn write_entries(
    session: &mut CommandSession,
    entries: &[Entry],
    into: &mut Vec<u8>,
) -> Result<(), AllocError>
    requires fresh { session.old.formers ≡ [] }
    requires commands { All (λ e. IsCommand e.command) entries.now }
    ensures written { OnOk result (IsMarkedUp into.old.items into.new.items) }
    ensures of_program { IsSessionOf session.old.model session.new }
{
    for entry in entries {
        write_entry(session.model(), entry, into)?;
        session.take(&entry.command)?;
    }
    Ok(())
}

// Writes the answers in short, each of the program as the commands before it edited it.
fn write_verdicts(
    session: &mut CommandSession,
    entries: &[Entry],
    into: &mut Vec<u8>,
) -> Result<(), AllocError>
    requires fresh { session.old.formers ≡ [] }
    requires commands { All (λ e. IsCommand e.command) entries.now }
    ensures written { OnOk result (IsMarkedUp into.old.items into.new.items) }
    ensures of_program { IsSessionOf session.old.model session.new }
{
    write_fixed("<nav aria-label='Answers'>\n<ul class=verdicts>\n", into)?;
    for entry in entries {
        write_verdict(session.model(), entry, into)?;
        session.take(&entry.command)?;
    }
    write_fixed("</ul>\n</nav>\n", into)
}

// Writes the answers in short, and leaves the session as it was.
fn write_overview(
    session: &mut CommandSession,
    entries: &[Entry],
    into: &mut Vec<u8>,
) -> Result<(), AllocError>
    requires fresh { session.old.formers ≡ [] }
    requires commands { All (λ e. IsCommand e.command) entries.now }
    ensures written { OnOk result (IsMarkedUp into.old.items into.new.items) }
    ensures back { session.new ≡ session.old }
{
    let written = write_verdicts(session, entries, into);
    session.rewind();
    written
}

// Writes the name of the model's file.
fn write_model(name: &[u8], into: &mut Vec<u8>) -> Result<(), AllocError>
    ensures { OnOk result (IsMarkedUp into.old.items into.new.items) }
{
    write(
        &[
            Fixed("<p class=model>Model: <code>"),
            Text(name),
            Fixed("</code></p>\n"),
        ],
        into,
    )
}

// Writes what stands behind the head.
fn write_body(
    session: &mut CommandSession,
    report: &Report,
    name: &[u8],
    into: &mut Vec<u8>,
) -> Result<(), AllocError>
    requires fresh { session.old.formers ≡ [] }
    requires commands { All (λ e. IsCommand e.command) report.now.entries }
    ensures written { OnOk result (IsMarkedUp into.old.items into.new.items) }
    ensures of_program { IsSessionOf session.old.model session.new }
{
    let entries = report.entries.as_slice();
    write_model(name, into)?;
    write_overview(session, entries, into)?;
    write_counts(entries, into)?;
    write_notes(session.model(), report.notes.as_slice(), into)?;
    write_entries(session, entries, into)?;
    write_fixed("</main>\n</body>\n</html>\n", into)
}

// Writes the head.
fn write_head(into: &mut Vec<u8>) -> Result<(), AllocError>
    ensures { OnOk result (into.new.items ≡ into.old.items ++ HEAD.now) }
{
    into.extend_from_slice(HEAD.as_bytes())
}

/// Appends one page for a report on a program, whose file has this name: an HTML document that needs no other file.
///
/// The page says that the report was checked, and how many of its answers are settled; so it is to be written of a report
/// that a check accepted. Behind the name comes first each answer in a line, with what to do next. Then, in the words of the model and in the
/// order of the report, each note, and each command with its answer: the values of a point; the members that cannot all be
/// met, with what each asks for, how often it is taken and how far it would have to move by itself, and why they cannot, as a
/// sum or as cases; in how many rounds members were enforced, or what it costs to show it, with its price; the point and the
/// ray along which the objective gets better without end, or how far it can go, with what holds it there; the least weighted
/// violation, with who gives way and what shows that none is less; that a question is not asked where a column is to be whole;
/// how far the program is reduced; why an edit is refused; or why a calculation stopped, where, and what was enforced there.
/// Each answer is written of the program as the commands before it edited it. Names are escaped: the tags of the page are
/// opened and closed by its fixed bytes alone.
///
/// The session is one of which nothing was edited yet, and it is so again in the end, whether memory is refused or not.
/// The commands of the report are to be such as may be asked, as those of one that was read are.
///
/// # Errors
///
/// Where memory is refused.
pub fn page(
    session: &mut CommandSession,
    report: &Report,
    name: &[u8],
    into: &mut Vec<u8>,
) -> Result<(), AllocError>
    requires fresh { session.old.formers ≡ [] }
    requires commands { All (λ e. IsCommand e.command) report.now.entries }
    ensures written { OnOk result (IsPage into.old.items into.new.items) }
    ensures back { session.new ≡ session.old }
{
    write_head(into)?;
    let written = write_body(session, report, name, into);
    session.rewind();
    written
}
