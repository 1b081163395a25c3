//! A prepared query as data, for programs that carry out its plan themselves, over indexes of another database say.
//!
//! `plan_json` writes it as a JSON text without spaces. `specs/PlanValue.antt` says which value that is; its members come in
//! this order:
//!
//! - `bound`: the announced number as a string of digits, since it may have 128 bits.
//! - `columns`: the names of the answer's columns.
//! - `query`: how the blocks make the answer: `{"block": 0}`, or `union` or `except` with a list of two such values. Blocks
//!   are numbered from left to right from 0 on.
//! - `blocks`: for each block, in the order of the numbers,
//!   - `atoms`: the table of each atom.
//!   - `classes`: for each atom the class of each column. Columns that the query equates have one class.
//!   - `count`: how many classes there are.
//!   - `constants`: the classes that the query equates with a value, each in a pair with it.
//!   - `comparisons`: the conditions that aren't equalities, each with `left`, a pair of atom and column, a `sign`, and
//!     `right`, which is a `value` or a pair `at`.
//!   - `output`: for each column of the answer its atom and column.
//!   - `guided`: whether the block begins with the answers of the left side of an EXCEPT, which then bind the classes of its
//!     output.
//!   - `steps`: each with its `atom`, `table` and `constraint`, the names of the constraint's columns under `key` and `fetch`,
//!     its `limit`, and whether it `adds` values, or checks those that are known.
//!
//! Tables, columns and constraints are named as the catalogue spells them, a column elsewhere by its number. It doesn't say
//! which columns the block needs, nor how much each block may read; the bound is that of all blocks together.
#![tactic(auto)]

mod as_json;
mod json_text;
mod plan;

pub use plan::plan_json;
