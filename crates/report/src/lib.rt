//! The texts of reports: what is written for each statement.
#![tactic(auto)]

mod decimal;
mod fields;
mod literals;
mod plans;
mod records;
mod refusals;
mod reports;
mod texts;

pub use plans::{plan_text, plan_text_over};
pub use reports::{Report, text};
