//! The top of beas: a script is cut into pieces one by one, what each says is done at a desk, and each report is written, or
//! the totals of all.
#![tactic(auto)]

mod audience;
mod demonstration;
mod ending;
mod laws;
mod no_script;
mod pieces;
mod planning;
mod pricing;
mod script;
mod script_source;
mod whole_run;

pub use command_line::{Args, Usage, args};
pub use laws::law_no_sessions;
pub use pieces::report_on;
pub use planning::planned;
pub use pricing::{Unpriced, priced};
pub use whole_run::run;
