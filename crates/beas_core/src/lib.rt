//! The types that all layers share, the value order, the index that plans read through, and what evaluation means.
#![tactic(auto)]

mod duplicate;
mod errors;
mod folded_names;
mod limits;
mod list;
mod names;
mod order;
mod plan;
mod port;
mod query;
mod recall;
mod refusal;
mod same_text;
mod schema;
mod spelling;
mod steps;
mod text;
mod tuples;
mod value;

pub use duplicate::Duplicate;
pub use errors::{Fail, NoMemory};
pub use folded_names::is_name;
pub use limits::Limits;
pub use list::{List, Row, copy_row};
pub use names::Name;
pub use order::{compare, compare_rows, sign_holds};
pub use plan::{Answer, DStep, Derivation, Normal, NotCovered, Prepared, Sizes, class_at};
pub use port::{AccessPort, Hits};
pub use query::{Atom, Block, Comparison, Operand, Place, Query, QueryNode, Sign};
pub use recall::{recall_bound, recall_classes, recall_length};
pub use refusal::{Counted, Refusal};
pub use same_text::is_text;
pub use schema::{Access, AccessId, AccessSpec, ColType, Column, ColumnId, TableId};
pub use spelling::limit_of;
pub use steps::Steps;
pub use text::{Bytes, Text};
pub use tuples::{compare_projected, sort_distinct};
pub use value::Value;
