// Why a run has no script, and what is said then.
ghost use Rattle.std.specs.Prelude.{◌≡◌};
ghost use Rattle.beas_run.specs.NoScripts.{line_of, status_of, IsSaid};

use command_line::usage_line;
use outside::{Sink, SinkError};

/// Why a run has no script.
#[derive(Clone, Copy, Debug, PartialEq, Eq)]
pub enum NoScript {
    /// The arguments are refused.
    Arguments,
    /// The script can't be read.
    Unread,
    /// The script has more than 16,777,216 bytes.
    TooLong,
    /// The script is not UTF-8.
    NotText,
    /// Memory ran out before there was a script.
    NoMemory,
}

/// The status of the program.
fn status_of(why: NoScript) -> u8
    ensures { result ≡ status_of why }
{
    match why {
        NoScript::Arguments => 2,
        NoScript::Unread => 3,
        NoScript::NoMemory => 5,
        NoScript::TooLong => 6,
        NoScript::NotText => 7,
    }
}

/// What is said on `err`.
fn line_of(why: NoScript) -> &'static str
    ensures { result.now ≡ line_of why }
{
    match why {
        NoScript::Arguments => usage_line(),
        NoScript::Unread => "beas: cannot read the script\n",
        // Nothing is said.
        NoScript::NoMemory => "",
        NoScript::TooLong => "beas: the script is longer than 16777216 bytes\n",
        NoScript::NotText => "beas: the script is not UTF-8\n",
    }
}

/// Says on `err` why there is no script, and gives the status. Out of memory, nothing is said.
pub fn say<E: Sink>(why: NoScript, err: &mut E) -> u8
    ensures { IsSaid why result (E.seen err.old) (E.seen err.new) }
{
    if why == NoScript::NoMemory {
        return 5;
    }
    match err.put(line_of(why).as_bytes()) {
        Ok(()) => status_of(why),
        Err(SinkError::Failed) => status_of(why),
        Err(SinkError::NoMemory) => 5,
    }
}
