// What a report says of a refusal.
ghost use Rattle.std.specs.Prelude.{◌≡◌, ◌++◌, codes, decimal, IfOk};
ghost use Rattle.beas_core.specs.declared.refusal.Refusal.TheVariants as refusal;
ghost use Rattle.report.specs.Texts.{counted_text, refusal_text};

use crate::decimal::Decimal;
use crate::literals::literals;
use crate::texts::text;
use beas_core::Refusal::{
    AlreadyBroken, Ambiguous, BadField, BadLimit, BadSession, BreaksBound, DuplicateName,
    FileTooLong, HeaderMismatch, MixedTypes, NeedsDistinct, NotCovered, NotGrouped, NumberRange,
    OverBudget, RecordWidth, SessionBusy, SessionIdle, ShapeMismatch, SumOfText, Syntax,
    TableExists, TextTooLong, TooDeep, TooLarge, TooMany, TooManyCandidates, UnknownAccess,
    UnknownColumn, UnknownTable, Unreadable, WrongType, WrongWidth,
};
use beas_core::{Counted, Name, NoMemory, Refusal, Row, Text};
use itoa::Integer;
use sql_tokens::push_quoted;
use std::alloc::Global;

/// What a report says of a refusal after its number.
pub fn refusal_text(alloc: Global, why: &Refusal) -> Result<Text, NoMemory>
    ensures { IfOk result (λ text. text ≡ refusal_text why.now) }
{
    match why {
        Syntax => words(alloc, "syntax"),
        TooDeep => words(alloc, "nesting deeper than 32"),
        TableExists { name } => around_name(alloc, "table ", name, " exists"),
        UnknownTable { name } => before_name(alloc, "unknown table ", name),
        UnknownColumn { table, column } => column_text(alloc, table, column),
        Ambiguous { column } => before_name(alloc, "ambiguous column ", column),
        DuplicateName { name } => before_name(alloc, "duplicate name ", name),
        MixedTypes { block, condition } => before_numbers(
            alloc,
            "type mismatch in block ",
            *block,
            " condition ",
            *condition,
        ),
        WrongType { row, column } => type_text(alloc, *row, column),
        ShapeMismatch { block } => shape_text(alloc, *block),
        BadLimit { digits } => around_text(
            alloc,
            "limit ",
            digits,
            " not between 1 and 4294967295",
        ),
        AlreadyBroken { needed, bound } => before_numbers(
            alloc,
            "greatest group ",
            *needed,
            " above limit ",
            *bound,
        ),
        BreaksBound { row, access, key } => breaks_text(alloc, *row, access, key),
        WrongWidth { row, found, wanted } => width_text(
            alloc,
            "row ",
            *row,
            *found,
            " values, ",
            *wanted,
        ),
        NumberRange { negative, digits } => range_text(alloc, *negative, digits),
        Unreadable { file } => unreadable_text(alloc, file),
        BadField { nth, column } => field_text(alloc, *nth, column),
        RecordWidth { nth, found, wanted } => width_text(
            alloc,
            "record ",
            *nth,
            *found,
            " fields, ",
            *wanted,
        ),
        HeaderMismatch => words(alloc, "header mismatch"),
        NotCovered {
            block,
            atom,
            column,
        } => reason_text(alloc, *block, *atom, column),
        TooLarge => words(alloc, "bound past 128 bits"),
        OverBudget { bound, budget } => before_numbers(
            alloc,
            "bound ",
            *bound,
            " above budget ",
            *budget,
        ),
        TooMany { what, limit } => many_text(alloc, *what, *limit),
        NeedsDistinct => words(alloc, "DISTINCT wanted"),
        FileTooLong { limit } => around_number(alloc, "file longer than ", *limit, " bytes"),
        UnknownAccess { name } => before_name(alloc, "unknown constraint ", name),
        TextTooLong { limit } => around_number(alloc, "text longer than ", *limit, " bytes"),
        NotGrouped { column } => around_name(alloc, "column ", column, " not grouped"),
        SumOfText { column } => before_name(alloc, "sum of text column ", column),
        TooManyCandidates { found } => candidates_text(alloc, *found),
        BadSession { digits } => around_text(alloc, "session ", digits, " not between 1 and 64"),
        SessionBusy { session } => around_number(alloc, "session ", *session, " has an open query"),
        SessionIdle { session } => around_number(alloc, "session ", *session, " has no open query"),
    }
}

/// These words alone.
fn words(alloc: Global, words: &str) -> Result<Text, NoMemory>
    ensures { IfOk result (λ text. text ≡ words.now) }
{
    Text::from_str(alloc, words)
}

/// Words, and a name after them.
fn before_name(alloc: Global, front: &str, name: &Name) -> Result<Text, NoMemory>
    ensures { IfOk result (λ text. text ≡ front.now ++ name.now) }
{
    text!(in alloc; "{}{}", front, name.as_str())
}

/// A name between words.
fn around_name(alloc: Global, front: &str, name: &Name, back: &str) -> Result<Text, NoMemory>
    ensures { IfOk result (λ text. text ≡ front.now ++ (name.now ++ back.now)) }
{
    text!(in alloc; "{}{}{}", front, name.as_str(), back)
}

/// A text between words.
fn around_text(alloc: Global, front: &str, content: &Text, back: &str) -> Result<Text, NoMemory>
    ensures { IfOk result (λ text. text ≡ front.now ++ (content.now ++ back.now)) }
{
    text!(in alloc; "{}{}{}", front, content.as_str(), back)
}

/// A number between words.
fn around_number<I: Integer>(
    alloc: Global,
    front: &str,
    number: I,
    back: &str,
) -> Result<Text, NoMemory>
    ensures { IfOk result (λ text. text ≡ front.now ++ (I.text number ++ back.now)) }
{
    text!(in alloc; "{}{}{}", front, Decimal(number), back)
}

/// Two numbers, each after words.
fn before_numbers<I: Integer, J: Integer>(
    alloc: Global,
    front: &str,
    first: I,
    middle: &str,
    second: J,
) -> Result<Text, NoMemory>
    ensures { IfOk result (λ text. text ≡ front.now ++ (I.text first ++ (middle.now ++ J.text second))) }
{
    text!(in alloc; "{}{}{}{}", front, Decimal(first), middle, Decimal(second))
}

/// Of a row or a record that has too many or too few of something.
fn width_text(
    alloc: Global,
    front: &str,
    nth: u32,
    found: u32,
    middle: &str,
    wanted: u32,
) -> Result<Text, NoMemory>
    ensures { IfOk result (λ text. text ≡ front.now ++ (decimal nth ++ (codes " has " ++ (decimal found
        ++ (middle.now ++ (decimal wanted ++ codes " wanted")))))) }
{
    text!(in alloc; "{}{} has {}{}{} wanted", front, Decimal(nth), Decimal(found), middle, Decimal(wanted))
}

fn type_text(alloc: Global, row: u32, column: &Name) -> Result<Text, NoMemory>
    ensures { IfOk result (λ text. text ≡ refusal_text (refusal.WrongType row column.now)) }
{
    text!(in alloc; "type mismatch in row {} column {}", Decimal(row), column.as_str())
}

fn shape_text(alloc: Global, block: u32) -> Result<Text, NoMemory>
    ensures { IfOk result (λ text. text ≡ refusal_text (refusal.ShapeMismatch block)) }
{
    text!(in alloc; "shape mismatch at block {}", Decimal(block))
}

fn field_text(alloc: Global, nth: u32, column: &Name) -> Result<Text, NoMemory>
    ensures { IfOk result (λ text. text ≡ refusal_text (refusal.BadField nth column.now)) }
{
    text!(in alloc; "record {} column {} bad field", Decimal(nth), column.as_str())
}

fn many_text(alloc: Global, what: Counted, limit: u64) -> Result<Text, NoMemory>
    ensures { IfOk result (λ text. text ≡ refusal_text (refusal.TooMany what limit)) }
{
    text!(in alloc; "too many {}, limit {}", counted_words(what), Decimal(limit))
}

fn candidates_text(alloc: Global, found: u32) -> Result<Text, NoMemory>
    ensures { IfOk result (λ text. text ≡ refusal_text (refusal.TooManyCandidates found)) }
{
    text!(in alloc; "{} candidate columns, limit 16", Decimal(found))
}

fn column_text(alloc: Global, table: &Option<Name>, column: &Name) -> Result<Text, NoMemory>
    ensures { IfOk result (λ text. text ≡ refusal_text (refusal.UnknownColumn table.now column.now)) }
{
    match table {
        None => text!(in alloc; "unknown column {}", column.as_str()),
        Some(table) => text!(in alloc; "unknown column {}.{}", table.as_str(), column.as_str()),
    }
}

fn range_text(alloc: Global, negative: bool, digits: &Text) -> Result<Text, NoMemory>
    ensures { IfOk result (λ text. text ≡ refusal_text (refusal.NumberRange negative digits.now)) }
{
    if negative {
        text!(in alloc; "number -{} out of range", digits.as_str())
    } else {
        text!(in alloc; "number {} out of range", digits.as_str())
    }
}

fn reason_text(
    alloc: Global,
    block: u32,
    atom: u32,
    column: &Option<Name>,
) -> Result<Text, NoMemory>
    ensures { IfOk result (λ text. text ≡ refusal_text (refusal.NotCovered block atom column.now)) }
{
    let (block, atom) = (Decimal(block), Decimal(atom));
    match column {
        None => text!(in alloc; "not covered: block {block} atom {atom} has no serving constraint"),
        Some(column) =>
            text!(in alloc; "not covered: block {block} atom {atom} column {}", column.as_str()),
    }
}

fn breaks_text(alloc: Global, row: u32, access: &Name, key: &Row) -> Result<Text, NoMemory>
    ensures { IfOk result (λ text. text ≡ refusal_text (refusal.BreaksBound row access.now key.now)) }
{
    let key = literals(alloc, key)?;
    text!(in alloc; "row {} breaks {} at key ({})", Decimal(row), access.as_str(), key.as_str())
}

fn unreadable_text(alloc: Global, file: &Text) -> Result<Text, NoMemory>
    ensures { IfOk result (λ text. text ≡ refusal_text (refusal.Unreadable file.now)) }
{
    let mut text = Text::from_str(alloc, "cannot read ")?;
    push_quoted(&mut text, file.as_str())?;
    Ok(text)
}

fn counted_words(what: Counted) -> &'static str
    ensures { result.now ≡ counted_text what }
{
    match what {
        Counted::Tables => "tables",
        Counted::Columns => "columns",
        Counted::Constraints => "constraints",
        Counted::Atoms => "atoms",
        Counted::Blocks => "blocks",
        Counted::Outputs => "outputs",
        Counted::Rows => "rows",
    }
}
