// The command that the arguments are read by.
ghost use Rattle.clap.specs.Simple.{app_of};
ghost use Rattle.std.specs.Prelude.{◌≡◌, IfOk};
ghost use Rattle.command_line.specs.Arguments.{beas};

use beas_core::NoMemory;
use clap::{Arg, ArgAction, Command};
use std::alloc::Global;

/// One optional script, `--budget` and `--demo` with a value each, which is kept as text, and the flag `--explain`.
pub fn command<'a>(alloc: Global) -> Result<Command<'a>, NoMemory>
    ensures { IfOk result (λ command. app_of command ≡ beas) }
{
    let script = Arg::new(alloc, "SCRIPT");
    let budget = Arg::new(alloc, "budget").long("budget");
    let demo = Arg::new(alloc, "demo").long("demo");
    let explain = Arg::new(alloc, "explain")
        .long("explain")
        .action(ArgAction::SetTrue);
    let command = Command::new(alloc, "beas").no_binary_name(true);
    let command = command.arg(script)?.arg(budget)?;
    Ok(command.arg(demo)?.arg(explain)?)
}
