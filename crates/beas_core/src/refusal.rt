// Refusals: every reason for which a statement isn't carried out.
ghost use Rattle.std.specs.Prelude.{◌≡◌};

use crate::list::Row;
use crate::names::Name;
use crate::text::Text;

/// What there may be too many of.
#[derive(Clone, Copy, Debug, PartialEq, Eq)]
pub enum Counted {
    Tables,
    Columns,
    Constraints,
    Atoms,
    Blocks,
    Outputs,
    Rows,
}

/// Why a statement is refused. Numbers of rows, records, blocks, atoms and conditions start at 1.
#[derive(Debug, Drop)]
pub enum Refusal {
    Syntax,
    TooDeep,
    TableExists {
        name: Name,
    },
    UnknownTable {
        name: Name,
    },
    UnknownColumn {
        table: Option<Name>,
        column: Name,
    },
    Ambiguous {
        column: Name,
    },
    DuplicateName {
        name: Name,
    },
    MixedTypes {
        block: u32,
        condition: u32,
    },
    WrongType {
        row: u32,
        column: Name,
    },
    ShapeMismatch {
        block: u32,
    },
    BadLimit {
        digits: Text,
    },
    AlreadyBroken {
        needed: u32,
        bound: u32,
    },
    BreaksBound {
        row: u32,
        access: Name,
        key: Row,
    },
    WrongWidth {
        row: u32,
        found: u32,
        wanted: u32,
    },
    NumberRange {
        negative: bool,
        digits: Text,
    },
    Unreadable {
        file: Text,
    },
    BadField {
        nth: u32,
        column: Name,
    },
    RecordWidth {
        nth: u32,
        found: u32,
        wanted: u32,
    },
    HeaderMismatch,
    NotCovered {
        block: u32,
        atom: u32,
        column: Option<Name>,
    },
    TooLarge,
    OverBudget {
        bound: u128,
        budget: u64,
    },
    TooMany {
        what: Counted,
        limit: u64,
    },
    NeedsDistinct,
    FileTooLong {
        limit: u64,
    },
    UnknownAccess {
        name: Name,
    },
    TextTooLong {
        limit: u32,
    },
    NotGrouped {
        column: Name,
    },
    SumOfText {
        column: Name,
    },
    TooManyCandidates {
        found: u32,
    },
    BadSession {
        digits: Text,
    },
    SessionBusy {
        session: u32,
    },
    SessionIdle {
        session: u32,
    },
}

impl Refusal {
    ghost use Rattle.beas_core.specs.Refusals.{number_of};

    /// The number that reports print, from 1 to 32.
    pub fn number(&self) -> u32
        ensures { result ≡ number_of self.now }
    {
        match self {
            Refusal::Syntax => 1,
            Refusal::TooDeep => 2,
            Refusal::TableExists { .. } => 3,
            Refusal::UnknownTable { .. } => 4,
            Refusal::UnknownColumn { .. } => 5,
            Refusal::Ambiguous { .. } => 6,
            Refusal::DuplicateName { .. } => 7,
            Refusal::MixedTypes { .. } | Refusal::WrongType { .. } => 8,
            Refusal::ShapeMismatch { .. } => 9,
            Refusal::BadLimit { .. } => 10,
            Refusal::AlreadyBroken { .. } => 11,
            Refusal::BreaksBound { .. } => 12,
            Refusal::WrongWidth { .. } => 13,
            Refusal::NumberRange { .. } => 14,
            Refusal::Unreadable { .. } => 15,
            Refusal::BadField { .. } => 16,
            Refusal::RecordWidth { .. } => 17,
            Refusal::HeaderMismatch => 18,
            Refusal::NotCovered { .. } => 19,
            Refusal::TooLarge => 20,
            Refusal::OverBudget { .. } => 21,
            Refusal::TooMany { .. } => 22,
            Refusal::NeedsDistinct => 23,
            Refusal::FileTooLong { .. } => 24,
            Refusal::UnknownAccess { .. } => 25,
            Refusal::TextTooLong { .. } => 26,
            Refusal::NotGrouped { .. } => 27,
            Refusal::SumOfText { .. } => 28,
            Refusal::TooManyCandidates { .. } => 29,
            Refusal::BadSession { .. } => 30,
            Refusal::SessionBusy { .. } => 31,
            Refusal::SessionIdle { .. } => 32,
        }
    }
}
