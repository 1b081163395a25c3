//! What sessions do that take turns at one database: the meaning of events, of pieces that name a session, of what an
//! open query goes on seeing while other tables and constraints change, and laws on these and on the statements that
//! tokens spell. Each law is a function without a result whose contract is the law. There are no threads: events come
//! one after another, and each is done whole.
#![tactic(auto)]

mod laws;
mod parsed;
mod part;
mod parts;
mod queries;

pub use laws::{
    law_announced_fits, law_first_answer, law_one_each, law_plain_piece, law_plain_script,
    law_unchanged_tables,
};
pub use parsed::{law_parsed_well, law_said_well};
pub use part::Part;
pub use parts::{law_parts, law_updated, law_with_part};
pub use queries::{law_kept_query, law_same_answer, law_same_query};
