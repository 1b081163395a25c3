//! Has sessions carry out scripts, and makes calls around them, and compares what comes of it with what is to come.
//!
//! What it tries are cases that stand as data, in folders and files that its caller names. Of each it prints how many
//! were as wanted, and what came of those that weren't. In a folder of cases each folder is a case, which has all files
//! that its script loads, too.
//!
//! - `try_scripts` runs scripts as the program runs them. A case has `script.beas`, the script, and `output`, what is
//!   to be written for it; `status`, the status that is wanted, where that isn't 0, and `error`, what is wanted on
//!   standard error, where that isn't nothing; `words`, the command line's arguments, one a line, where they aren't
//!   `script.beas`; `failing_read`, the number of the load that fails, from 0 on, where one is to fail; and
//!   `before.beas`, a script that is run before, over the same session, where there is to be one.
//!
//!   A case is run over an output that takes as many bytes as are wanted and no more, then over one that keeps each put
//!   by itself, which is to be one report, and then over outputs that fail earlier, at each length or, where there are
//!   more than 400, at so many of them: then the status is 4 and the output is what comes before the failure. A
//!   demonstration has one put for all its statements, and is let fail at a few lengths alone, since each takes a whole
//!   run. Where something is wanted on standard error, that is let fail at each length too: then the status stays.
//! - `make_calls` makes calls that no script makes by themselves. Of each line of a file it prints what the call gives
//!   that the line spells: words with one space between them. Files, outputs, a table and a session are there from the
//!   start, empty, and each call leaves them to the next. A line that begins with `#` is a comment.
//!     - `add NAME BYTES` gives both kinds of files in memory a file, `fail N` lets the load with this number fail,
//!       from 0 on, `read NAME LIMIT` loads a file of both kinds, and `faults NAME` tells how many of its loads failed.
//!     - `put BYTES` puts a piece into both kinds of outputs in memory, `full N` lets the first fail after so many
//!       bytes, and `sent` tells what both took and how often a put failed.
//!     - `push N LIMIT`, `append N,N,.. LIMIT`, `swap I J`, `remove I` and `truncate LEN` change the rows of a table,
//!       of one integer each, and tell them.
//!     - `run NAME` runs the script with this name over the files that never fail and the one session, and tells the
//!       status and what was sent.
//! - `try_limits` has scripts for sessions with lowered limits, which no script that the program runs reaches. A case
//!   has `limits`, whose lines have a limit's name and its number, `script.beas`, whose statements a session with these
//!   limits carries out one by one, and `output`, what is to be reported of them. In `limits`, `budget` is the greatest
//!   number of reads that a query may announce; a limit that isn't named is the usual one, and no number raises a
//!   limit.
//! - `try_evaluated` has queries whose answers a person worked out. A case has `script.beas`, a script that makes a
//!   store; `queries`, a query over it on each line; and `output`, what is to be reported of these queries, numbered
//!   from 1. The reports of a session have to be `output`, and the rows of each answer those that `full_meaning` gives
//!   for the query.
//!
//! It promises nothing but safety: what it finds can be seen by what it prints.
#![tactic(auto)]

mod calls;
mod cases;
mod evaluated;
mod files;
mod folders;
mod limits;
mod outputs;
mod puts;
mod runs;
mod scripts;
mod table;

pub use calls::make_calls;
pub use folders::{try_evaluated, try_limits};
pub use scripts::try_scripts;
