//! Compares what cursors give of queries, and what stores make of updates, with what others give.
//!
//! - `try_cursors`: cursors answer drawn and named queries, turn by turn, over stores that sessions have, and what they
//!   give is compared with what `execute` gives. It is handed the number of sessions with drawn tables, constraints and
//!   queries, and a folder of which each folder is a case. A case has `script.beas`, a script that makes a store;
//!   `queries`, a query over it on each line; and `output`, for each query a line with how many turns made a probe, and
//!   how many rows and reads the answer has.
//! - `try_updates`: drawn updates are carried out on a session, on a store of plain indexes by its own calls, and on
//!   plain lists of rows by a plain program that decides itself what is refused. Each report is compared, and now and
//!   then each group of each index. It is handed the number of updates. So many are made of narrow tables, and then of
//!   wide ones with long keys.
//!
//! Both print how many came out how. It promises nothing but safety. The counter of reads has no value when the program
//! runs: that it rises by an answer's reads, and by each probe's share, is proved of the executor and of the cursor
//! alone.
#![tactic(auto)]

mod cursors;
mod indexes;
mod named;
mod stores;
mod turns;
mod updates;

pub use cursors::try_cursors;
pub use updates::try_updates;
