// What a piece says.
use sql_text::Statement;

/// One event at a desk, of one session. A piece of a script says one; what the session numbered 0 says is what pieces say that
/// name no session.
#[derive(Debug, Drop)]
pub enum Event {
    /// The session says a statement, as in `@2 SELECT ..`.
    Said { session: u32, statement: Statement },
    /// The session's open query goes on, as in `@2 STEP`: by one probe, or to its answer.
    Stepped { session: u32 },
}
