// What a session is made of.
use session::Session;

/// A session has these four fields and no other, so no copy of its rows: with a further field this would not compile.
pub fn session_fields(session: Session) {
    let Session {
        guarded,
        limits: _limits,
        budget: _budget,
        explain: _explain,
    } = session;
    // A store that goes out of scope is proved anew in each crate where it does, with all its parts.
    guarded.discard();
}
