// Statements, read and carried out by a session.
ghost use Rattle.std.specs.Prelude.{◌-◌, ◌<◌, ◌≤◌, ◌^◌, length, All, IfOk};
ghost use Rattle.session.specs.Statements.{StatementIsWellFormed};

use beas_core::{Fail, List, NoMemory, Refusal, Row, Steps, Text};
use drawn_tables::{Shape, Twin, creations, draw_scene, script_of, tables_of};
use outside::MemoryFiles;
use report::{Report, text};
use session::Session;
use sql_parser::parse;
use sql_text::Statement;
use sql_tokens::{Piece, Token, lex, split};
use std::alloc::Global;
use std::sync::ledger::Ledger;

/// The most bytes that statements may have.
const LONGEST: usize = 16_777_216;

/// The statement that some tokens spell.
fn parse_well(alloc: Global, tokens: &[Token]) -> Result<Statement, Fail>
    requires { length tokens.now < 2 ^ 32 - 1 }
    ensures { IfOk result StatementIsWellFormed }
{
    parse(alloc, tokens)
}

/// The statement that a text of at most 16,777,216 bytes spells, with what a session asks of it.
pub fn statement_of(alloc: Global, spelled: &str) -> Result<Statement, Fail>
    ensures { IfOk result StatementIsWellFormed }
{
    if spelled.len() > LONGEST {
        return Err(Fail::Refused(Refusal::Syntax));
    }
    let tokens = lex(alloc, spelled)?;
    parse_well(alloc, tokens.as_slice())
}

/// Has a session carry out a statement that was read, and says what is reported of it. The statement goes by `drop`, here
/// and elsewhere: a value of many kinds that goes at the end of its block makes a long proof.
fn report_of<L: Ledger>(
    alloc: Global,
    session: &mut Session,
    files: &mut MemoryFiles,
    read: Result<Statement, Fail>,
    steps: &mut Steps<L>,
) -> Result<Report, NoMemory>
    requires { IfOk read StatementIsWellFormed }
{
    match read {
        Ok(statement) => {
            let report = session.apply(alloc, files, &statement, steps);
            drop(statement);
            report
        }
        Err(Fail::Refused(why)) => Ok(Report::Refused { why }),
        Err(Fail::NoMemory) => Err(NoMemory),
    }
}

/// Carries out the statement that a text spells, which loads no file, and says what is reported of it.
pub fn report_by<L: Ledger>(
    alloc: Global,
    session: &mut Session,
    spelled: &str,
    steps: &mut Steps<L>,
) -> Result<Report, NoMemory> {
    let mut files = MemoryFiles::new(alloc);
    report_of(
        alloc,
        session,
        &mut files,
        statement_of(alloc, spelled),
        steps,
    )
}

/// What is reported of a statement that was carried out, or refused as it was read.
pub fn reported(outcome: Result<Report, Fail>) -> Result<Report, NoMemory> {
    match outcome {
        Ok(report) => Ok(report),
        Err(Fail::Refused(why)) => Ok(Report::Refused { why }),
        Err(Fail::NoMemory) => Err(NoMemory),
    }
}

/// Adds the lines of a report.
pub fn push_report(
    alloc: Global,
    lines: &mut Text,
    number: u32,
    report: &Report,
) -> Result<(), NoMemory> {
    lines.push_str(text(alloc, number, report)?.as_str())
}

/// Carries out the statement that some tokens spell, and adds the lines of its report.
fn push_report_of<L: Ledger>(
    alloc: Global,
    session: &mut Session,
    files: &mut MemoryFiles,
    lines: &mut Text,
    number: u32,
    tokens: &[Token],
    steps: &mut Steps<L>,
) -> Result<(), NoMemory>
    requires { length tokens.now < 2 ^ 32 - 1 }
{
    let report = report_of(alloc, session, files, parse_well(alloc, tokens), steps)?;
    let pushed = push_report(alloc, lines, number, &report);
    drop(report);
    pushed
}

/// Carries out the statements at these places, and adds the lines of their reports.
fn push_reports<L: Ledger>(
    alloc: Global,
    session: &mut Session,
    files: &mut MemoryFiles,
    lines: &mut Text,
    tokens: &[Token],
    pieces: &[Piece],
    steps: &mut Steps<L>,
) -> Result<(), NoMemory>
    requires short { length tokens.now < 2 ^ 32 - 1 }
    requires within { All (λ p. (p.from < p.to) × (p.to ≤ length tokens.now)) pieces.now }
{
    let mut number: u32 = 0;
    for piece in pieces {
        number = number.saturating_add(1);
        let statement = &tokens[piece.from as usize..piece.to as usize];
        push_report_of(alloc, session, files, lines, number, statement, steps)?;
    }
    Ok(())
}

/// The same of the statements of a script.
fn push_script<L: Ledger>(
    alloc: Global,
    session: &mut Session,
    files: &mut MemoryFiles,
    lines: &mut Text,
    script: &str,
    steps: &mut Steps<L>,
) -> Result<(), NoMemory>
    requires { length script.now ≤ 16777216 }
{
    let tokens = lex(alloc, script)?;
    let pieces = split(alloc, &tokens)?;
    push_reports(
        alloc,
        session,
        files,
        lines,
        tokens.as_slice(),
        pieces.as_slice(),
        steps,
    )
}

/// Carries out the statements of a script that may load files, and gives the lines of their reports, numbered from 1.
/// There are none where the script has more than 16,777,216 bytes.
pub fn reports_over<L: Ledger>(
    alloc: Global,
    session: &mut Session,
    files: &mut MemoryFiles,
    script: &str,
    steps: &mut Steps<L>,
) -> Result<Text, NoMemory> {
    let mut lines = Text::new(alloc);
    if script.len() <= LONGEST {
        push_script(alloc, session, files, &mut lines, script, steps)?;
    }
    Ok(lines)
}

/// The same of a script that loads none.
pub fn reports<L: Ledger>(
    alloc: Global,
    session: &mut Session,
    script: &str,
    steps: &mut Steps<L>,
) -> Result<Text, NoMemory> {
    reports_over(alloc, session, &mut MemoryFiles::new(alloc), script, steps)
}

/// Carries out statements that load no file, and gives the lines of their reports, numbered from 1.
pub fn reports_of<L: Ledger>(
    alloc: Global,
    session: &mut Session,
    statements: &[Text],
    steps: &mut Steps<L>,
) -> Result<Text, NoMemory> {
    let script = script_of(alloc, statements)?;
    reports(alloc, session, script.as_str(), steps)
}

/// Has a session without tables make those of `creations` with the rows and constraints of a drawn scene, and gives the
/// rows of each table.
pub fn fill_scene<L: Ledger>(
    alloc: Global,
    session: &mut Session,
    twin: &mut Twin,
    steps: &mut Steps<L>,
) -> Result<Vec<List<Row>>, NoMemory> {
    reports_of(alloc, session, &creations(alloc, Shape::narrow())?, steps)?;
    reports_of(alloc, session, &draw_scene(alloc, twin)?, steps)?;
    tables_of(alloc, &twin.plain)
}
