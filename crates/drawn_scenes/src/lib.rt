//! Sessions with small drawn scenes, whose tables, updates and queries `drawn_tables` draws.
//!
//! `reports_of` has a session carry out statements. `statement_of` reads the text of a query, `bound_query` binds it, and
//! `announced_query` and `report_by` have a session announce it and carry it out. `try_scenes` tries a `Trial` over many
//! sessions, each with a drawn scene of its own. Beside them stands what such programs need of folders of files, and
//! their error where memory is out.
//!
//! It promises nothing but safety, and of `statement_of` that a statement has what a session asks for, of `bound_query`
//! that a query is well-formed, of `announced_query` that it fits the session's store: what is drawn can be seen by
//! what is printed of it.
#![tactic(auto)]

mod announced;
mod bound;
mod folders;
mod statements;
mod trials;
mod words;

pub use announced::announced_query;
pub use bound::bound_query;
pub use drawn_tables::{
    Batch, Draws, Fact, Plain, Rule, Shape, TABLES, Twin, column_name, creations, draw_query,
    refusal_of_block, table_name, value,
};
pub use folders::{files_in, names_in, text_in};
pub use statements::{
    push_report, report_by, reported, reports, reports_of, reports_over, statement_of,
};
pub use trials::{Trial, try_scenes};
pub use words::out_of_memory;
