// The report of a statement, and its lines.
ghost use Rattle.std.specs.Prelude.{◌≡◌, [], ◌++◌, length, map, IfOk, OnOk};
ghost use Rattle.std.specs.List.{flat_map};
ghost use Rattle.report.specs.declared.reports.Report.TheVariants.{Answered, Explained, Grouped, Pairs, Refused, Specialised};
ghost use Rattle.report.specs.Reports.{bound_text, counts_text, pair_line, place_line, records_text, report_text};

use crate::decimal::Decimal;
use crate::fields::Field;
use crate::records::push_records;
use crate::refusals::refusal_text;
use crate::texts::text;
use aggregate::Cell;
use beas_core::{List, Name, NoMemory, Refusal, Row, Text};
use itoa::Buffer;
use std::alloc::Global;

/// Room for the lines around the plan lines of a small answer.
const ROOM_AROUND_PLAN: usize = 256;

/// What is reported of a statement.
#[derive(Debug, Drop)]
pub enum Report {
    /// A table or an access constraint was created, or a constraint was dropped.
    Done,
    /// So many rows were added or removed.
    Changed {
        rows: u32,
    },
    /// The size of the greatest group.
    Greatest {
        most: u32,
    },
    /// Pairs of columns, each with the size of its greatest group.
    Pairs {
        found: List<(Name, Name, u32)>,
    },
    /// What is announced of a query that isn't run: the greatest number of reads, and the plan lines.
    Explained {
        bound: u128,
        plan: Text,
    },
    /// A query's answer: the number announced before anything was read, the plan lines if they are wanted,
    /// the columns' names, the rows in value order, and how many tuples were read.
    Answered {
        bound: u128,
        plan: Text,
        header: List<Name>,
        rows: List<Row>,
        reads: u128,
    },
    /// The answer of a query in groups, as that of a query: a name for each item, and for each group a row of cells.
    Grouped {
        bound: u128,
        plan: Text,
        header: List<Text>,
        rows: List<List<Cell>>,
        reads: u128,
    },
    /// The columns that, given as constants, would make a block covered, each with the number of its atom, from 1
    /// on; nothing where no columns do.
    Specialised {
        places: Option<List<(u32, Name)>>,
    },
    /// A session's query was announced, and its probes may be made one by one.
    Opened {
        session: u32,
        bound: u128,
    },
    /// One probe of a session's query was made.
    Probed {
        session: u32,
    },
    /// The statement was not carried out.
    Refused {
        why: Refusal,
    },
}

/// The lines of the report of the statement with this number.
#[tactic(auto, unfolding(crate::specs::Reports::report_text))]
pub fn text(alloc: Global, number: u32, report: &Report) -> Result<Text, NoMemory>
    ensures { IfOk result (λ text. text ≡ report_text number report.now) }
{
    let k = Decimal(number);
    match report {
        Report::Done => text!(in alloc; "{k} ok\n"),
        Report::Changed { rows } => text!(in alloc; "{k} ok {} rows\n", Decimal(*rows)),
        Report::Greatest { most } => text!(in alloc; "{k} max {}\n", Decimal(*most)),
        Report::Pairs { found } => found_text(alloc, number, found),
        Report::Explained { bound, plan } => explained_text(alloc, number, *bound, plan),
        Report::Answered {
            bound,
            plan,
            header,
            rows,
            reads,
        } => answered_text(alloc, number, *bound, plan, header, rows, *reads),
        Report::Grouped {
            bound,
            plan,
            header,
            rows,
            reads,
        } => grouped_text(alloc, number, *bound, plan, header, rows, *reads),
        Report::Specialised { places } => specialised_text(alloc, number, places),
        Report::Opened { session, bound } =>
            text!(in alloc; "{k} open {} bound {}\n", Decimal(*session), Decimal(*bound)),
        Report::Probed { session } => text!(in alloc; "{k} probed {}\n", Decimal(*session)),
        Report::Refused { why } => refused_text(alloc, number, why),
    }
}

/// The line of a statement that was not carried out.
#[tactic(auto, unfolding(crate::specs::Reports::report_text))]
fn refused_text(alloc: Global, number: u32, why: &Refusal) -> Result<Text, NoMemory>
    ensures { IfOk result (λ text. text ≡ report_text number (Refused why.now)) }
{
    let k = Decimal(number);
    let said = refusal_text(alloc, why)?;
    text!(in alloc; "{k} refused {} {}\n", Decimal(why.number()), said.as_str())
}

/// The lines of pairs of columns.
#[tactic(auto, unfolding(crate::specs::Reports::report_text))]
fn found_text(alloc: Global, number: u32, found: &List<(Name, Name, u32)>) -> Result<Text, NoMemory>
    ensures { IfOk result (λ text. text ≡ report_text number (Pairs found.now)) }
{
    let k = Decimal(number);
    let pairs = pairs_text(alloc, number, found)?;
    text!(in alloc; "{}{k} ok {} pairs\n", pairs.as_str(), Decimal(found.len()))
}

/// The lines of a query that isn't run.
#[tactic(auto, unfolding(crate::specs::Reports::report_text))]
fn explained_text(alloc: Global, number: u32, bound: u128, plan: &Text) -> Result<Text, NoMemory>
    ensures { IfOk result (λ text. text ≡ report_text number (Explained bound plan.now)) }
{
    let mut text = empty_text_for(alloc, plan)?;
    push_bound(&mut text, number, bound, plan)?;
    text.push_str(Buffer::new().format(number))?;
    text.push_str(" ok\n")?;
    Ok(text)
}

/// The lines of a query's answer.
fn answered_text(
    alloc: Global,
    number: u32,
    bound: u128,
    plan: &Text,
    header: &List<Name>,
    rows: &List<Row>,
    reads: u128,
) -> Result<Text, NoMemory>
    ensures { IfOk result (λ text. text ≡ report_text number (Answered bound plan.now header.now rows.now reads)) }
{
    answer_text(
        alloc,
        number,
        bound,
        plan,
        header.as_slice(),
        rows.as_slice(),
        reads,
    )
}

/// The lines of an answer in groups.
fn grouped_text(
    alloc: Global,
    number: u32,
    bound: u128,
    plan: &Text,
    header: &List<Text>,
    rows: &List<List<Cell>>,
    reads: u128,
) -> Result<Text, NoMemory>
    ensures { IfOk result (λ text. text ≡ report_text number (Grouped bound plan.now header.now rows.now reads)) }
{
    answer_text(
        alloc,
        number,
        bound,
        plan,
        header.as_slice(),
        rows.as_slice(),
        reads,
    )
}

/// The lines of an answer, whose header and rows are records.
fn answer_text<H: Field, F: Field>(
    alloc: Global,
    number: u32,
    bound: u128,
    plan: &Text,
    header: &[H],
    rows: &[List<F>],
    reads: u128,
) -> Result<Text, NoMemory>
    ensures { IfOk result (λ text. text ≡ (bound_text number bound plan.now
        ++ records_text F.field (map H.field header.now) rows.now) ++ counts_text number (length rows.now) reads) }
{
    let mut text = empty_text_for(alloc, plan)?;
    push_bound(&mut text, number, bound, plan)?;
    push_records(alloc, &mut text, header, rows)?;
    push_counts(&mut text, number, rows.len(), reads)?;
    Ok(text)
}

/// An empty text with room for the plan lines and some more, so that a small answer is written in one block of memory.
fn empty_text_for(alloc: Global, plan: &Text) -> Result<Text, NoMemory>
    ensures { IfOk result (λ text. text ≡ []) }
{
    let room = plan.as_str().len().saturating_add(ROOM_AROUND_PLAN);
    Ok(Text::from_string(String::with_capacity(alloc, room)?))
}

#[tactic(auto, unfolding(crate::specs::Reports::report_text))]
fn specialised_text(
    alloc: Global,
    number: u32,
    places: &Option<List<(u32, Name)>>,
) -> Result<Text, NoMemory>
    ensures { IfOk result (λ text. text ≡ report_text number (Specialised places.now)) }
{
    let k = Decimal(number);
    match places {
        None => text!(in alloc; "{k} none\n"),
        Some(places) => {
            let lines = places_text(alloc, number, places)?;
            text!(in alloc; "{}{k} ok {} columns\n", lines.as_str(), Decimal(places.len()))
        }
    }
}

fn places_text(alloc: Global, number: u32, places: &List<(u32, Name)>) -> Result<Text, NoMemory>
    ensures { IfOk result (λ text. text ≡ flat_map (place_line number) places.now) }
{
    let mut text = Text::new(alloc);
    for place in places.as_slice() {
        let line = place_text(alloc, number, place)?;
        text.push_str(line.as_str())?;
    }
    Ok(text)
}

fn place_text(alloc: Global, number: u32, place: &(u32, Name)) -> Result<Text, NoMemory>
    ensures { IfOk result (λ text. text ≡ place_line number place.now) }
{
    let k = Decimal(number);
    text!(in alloc; "{k} needs atom {} column {}\n", Decimal(place.0), place.1.as_str())
}

fn pairs_text(alloc: Global, number: u32, found: &List<(Name, Name, u32)>) -> Result<Text, NoMemory>
    ensures { IfOk result (λ text. text ≡ flat_map (pair_line number) found.now) }
{
    let mut text = Text::new(alloc);
    for (first, second, most) in found.as_slice() {
        let line = pair_text(alloc, number, first, second, *most)?;
        text.push_str(line.as_str())?;
    }
    Ok(text)
}

fn pair_text(
    alloc: Global,
    number: u32,
    first: &Name,
    second: &Name,
    most: u32,
) -> Result<Text, NoMemory>
    ensures { IfOk result (λ text. text ≡ pair_line number (first.now, second.now, most)) }
{
    let k = Decimal(number);
    text!(in alloc; "{k} pair {} {} {}\n", first.as_str(), second.as_str(), Decimal(most))
}

/// Adds the announced number, and the plan lines after it.
fn push_bound(text: &mut Text, number: u32, bound: u128, plan: &Text) -> Result<(), NoMemory>
    ensures { OnOk result (text.new ≡ text.old ++ bound_text number bound plan.now) }
{
    text.push_str(Buffer::new().format(number))?;
    text.push_str(" bound ")?;
    text.push_str(Buffer::new().format(bound))?;
    text.push_str("\n")?;
    text.push_str(plan.as_str())
}

/// Adds the last line of an answer.
fn push_counts(text: &mut Text, number: u32, rows: usize, reads: u128) -> Result<(), NoMemory>
    ensures { OnOk result (text.new ≡ text.old ++ counts_text number rows reads) }
{
    text.push_str(Buffer::new().format(number))?;
    text.push_str(" ok ")?;
    text.push_str(Buffer::new().format(rows))?;
    text.push_str(" rows ")?;
    text.push_str(Buffer::new().format(reads))?;
    text.push_str(" reads\n")
}
