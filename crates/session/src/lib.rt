//! A session: what each statement of the language does, and what is announced of a query.
#![tactic(auto)]

mod changes;
mod discovery;
mod grouping;
mod loading;
mod queries;
mod scanning;
mod session;
mod settings;
mod specialising;
mod stored;
mod tables;

pub use loading::LoadOutcome;
pub use queries::plan_shown;
pub use session::Session;
pub use stored::Store;
