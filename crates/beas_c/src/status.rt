// What a call comes to.
ghost use Rattle.std.specs.Prelude.{◌≡◌};
ghost use Rattle.beas_c.specs.Statuses.{status_of};

use beas_library::Why;

/// The call did what it is for.
pub const DONE: i32 = 0;

/// The database is closed.
pub const CLOSED: i32 = 1;

/// Memory ran out.
pub const NO_MEMORY: i32 = 2;

/// What is asked for has no room.
pub const NO_ROOM: i32 = 3;

/// The text is too long.
pub const TOO_LONG: i32 = 4;

/// The bytes aren't UTF-8.
pub const NOT_TEXT: i32 = 5;

/// The text has no statement.
pub const NO_STATEMENT: i32 = 6;

/// The text has several.
pub const SEVERAL: i32 = 7;

/// What is to be priced is no query.
pub const NOT_A_QUERY: i32 = 8;

/// The report has no such thing.
pub const ABSENT: i32 = 9;

/// A limit is too great.
pub const BAD_LIMIT: i32 = 10;

/// The status of a text, by what became of it.
pub fn status_of(said: Result<(), Why>) -> i32
    ensures { result ≡ status_of said }
{
    match said {
        Ok(()) => DONE,
        Err(Why::TooLong) => TOO_LONG,
        Err(Why::NotText) => NOT_TEXT,
        Err(Why::NoStatement) => NO_STATEMENT,
        Err(Why::Several) => SEVERAL,
        Err(Why::NotAQuery) => NOT_A_QUERY,
        Err(Why::NoMemory) => NO_MEMORY,
    }
}
