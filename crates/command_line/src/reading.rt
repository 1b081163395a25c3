// The reading of the arguments.
ghost use Rattle.clap.specs.Walk.{first_of, rows_of};
ghost use Rattle.clap.specs.Matches.{found_of};
ghost use Rattle.std.specs.Prelude.{◌≡◌, None, Some, IfOk, ◌-◌, ◌^◌, map, option_map, string_bytes};
ghost use Rattle.command_line.specs.Arguments.{args_in, args_of, is_from_arguments, is_given, number_given, run_asked};

use crate::arguments::{Args, Usage};
use crate::command::command;
use crate::numbers::{budget_of, seed_of};
use beas_core::Text;
use clap::ArgMatches;
use clap::parser::ValueSource;
use std::alloc::Global;

/// The run that `words`, the arguments after the program's name, ask for. A request for help asks for none.
pub fn args(alloc: Global, words: &[String]) -> Result<Args, Usage>
    ensures taken { IfOk result (λ args. args_of (map string_bytes words.now) ≡ Some args) }
    ensures refused { result ≡ Err Usage.Refused → args_of (map string_bytes words.now) ≡ None }
{
    let command = command(alloc)?;
    let matches = command.try_get_matches_from(words)?;
    args_in(alloc, &matches)
}

/// What the matches of the command ask for.
fn args_in(alloc: Global, matches: &ArgMatches<'_>) -> Result<Args, Usage>
    ensures taken { IfOk result (λ args. args_in (rows_of (found_of matches.now)) ≡ Some args) }
    ensures refused { result ≡ Err Usage.Refused → args_in (rows_of (found_of matches.now)) ≡ None }
{
    let Some(budget) = budget_given(value_of(matches, "budget")) else {
        return Err(Usage::Refused);
    };
    let script = value_of(matches, "SCRIPT");
    let demo = value_of(matches, "demo");
    run_asked(alloc, script, demo, budget, is_given(matches, "explain"))
}

fn run_asked(
    alloc: Global,
    script: Option<&str>,
    demo: Option<&str>,
    budget: Option<u64>,
    explain: bool,
) -> Result<Args, Usage>
    ensures taken { IfOk result (λ args.
        run_asked (option_map (λ s. s.now) script.entry) (option_map (λ s. s.now) demo.entry) budget explain
        ≡ Some args) }
    ensures refused { result ≡ Err Usage.Refused
        → run_asked (option_map (λ s. s.now) script.entry) (option_map (λ s. s.now) demo.entry) budget explain ≡ None }
{
    match (script, demo) {
        (Some(path), None) => Ok(Args::Script {
            path: Text::from_str(alloc, path)?,
            budget,
            explain,
        }),
        (None, Some(digits)) => match seed_of(digits) {
            Some(seed) => Ok(Args::Demo {
                seed,
                budget,
                explain,
            }),
            None => Err(Usage::Refused),
        },
        _ => Err(Usage::Refused),
    }
}

/// The number that an option is given, if it is given one: none where its value is no number of 64 bits.
fn budget_given(value: Option<&str>) -> Option<Option<u64>>
    ensures { result ≡ number_given (2 ^ 64 - 1) (option_map (λ s. s.now) value.entry) }
{
    match value {
        Some(digits) => budget_of(digits).map(Some),
        None => Some(None),
    }
}

/// The value that is given for an argument of the command.
fn value_of<'a>(matches: &ArgMatches<'a>, name: &str) -> Option<&'a str>
    ensures { option_map (λ s. s.now) result ≡ first_of name.now (rows_of (found_of matches.now)) }
{
    matches.get_str(name)
}

/// Whether a flag is among the arguments.
fn is_given(matches: &ArgMatches<'_>, name: &str) -> bool
    ensures { result ≡ is_given name.now (rows_of (found_of matches.now)) }
{
    is_from_arguments(matches.value_source(name))
}

fn is_from_arguments(source: Option<ValueSource>) -> bool
    ensures { result ≡ is_from_arguments source }
{
    match source {
        Some(ValueSource::CommandLine) => true,
        Some(ValueSource::DefaultValue) | None => false,
    }
}
