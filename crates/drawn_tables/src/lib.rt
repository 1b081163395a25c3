//! Small drawn tables with rows and constraints, updates of them and queries over them, as statements and as plain
//! lists. They serve programs that compare what layers and sessions give with what plain programs give.
//!
//! What is drawn depends on a seed alone, so that it is the same in each run. A `Twin` draws updates and carries them
//! out on a plain list of rows by scans; a `Batch` has them as statements, with what a session is to report of them.
//! `creations` has the statements that create the tables, `draw_scene` those of a few rows and constraints, and
//! `tables_of` the rows as plain tables. `draw_query` draws the text of a query, and `refusal_of_block` is its refusal
//! where a block isn't covered.
//!
//! It promises nothing but safety: what is drawn can be seen by what is printed of it.
#![tactic(auto)]

mod conditions;
mod draws;
mod plain;
mod queries;
mod refusals;
mod scenes;
mod tables;
mod updates;

pub use draws::Draws;
pub use plain::{Plain, Rule};
pub use queries::draw_query;
pub use refusals::refusal_of_block;
pub use scenes::{draw_scene, tables_of};
pub use tables::{Fact, Shape, TABLES, column_name, table_name, value};
pub use updates::{Batch, Twin, creations, script_of};
