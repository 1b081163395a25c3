//! beas for C. C keeps a `beas_database` in its own memory, and hands its address to each call: see `include/beas.h`.
#![tactic(auto)]

mod answer_calls;
mod calls;
mod cells;
mod column_calls;
mod database;
mod held;
mod limits;
mod pair_calls;
mod report_calls;
mod seat;
mod status;
mod telling;

pub use database::Database;
pub use held::Held;
pub use limits::AskedLimits;
pub use seat::Seat;
