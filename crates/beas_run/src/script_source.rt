// What the pieces of a run come from: the arguments, and the text that they ask for.
ghost use Rattle.std.specs.Prelude.{◌≡◌, ◌≤◌, None, Some, length, map, IfOk, IfErr, IsErrOf};
ghost use Rattle.std.specs.Str.{IsUtf8};
ghost use Rattle.std.specs.String.{string_bytes};
ghost use Rattle.command_line.specs.Arguments.{args_of};
ghost use Rattle.outside.specs.Counts.{Rose, raised};
ghost use Rattle.outside.specs.Seen.{IsLater};
ghost use Rattle.beas_run.specs.Runs.{longest_script, path_of, script_name, IsContent, IsNoText, IsScriptOf, IsTooLong};
ghost use Rattle.beas_run.specs.Sources.{HasNoScript, IsSource, LoadsScript};

use crate::no_script::NoScript;
use beas_core::{Bytes, NoMemory, Text};
use command_line::{Args, Usage, args};
use demo_gen::demo;
use outside::{Files, FilesError};
use sql_tokens::LONGEST_SCRIPT;
use std::alloc::Global;

/// What the arguments ask for, and the text of its pieces.
#[derive(Debug, Drop)]
pub struct Source {
    pub args: Args,
    pub text: Text,
}

/// The text of a script that can be read and is one.
fn load_named<F: Files>(alloc: Global, name: &str, files: &mut F) -> Result<Text, NoScript>
    ensures fits { IfOk result (λ text. length text ≤ longest_script) }
    ensures content { IfOk result (λ text. IsContent
        (F.seen files.old) text name.now) }
    ensures named { IsErrOf result NoScript.Arguments → ⊥ }
    ensures unread { IsErrOf result NoScript.Unread → Rose
        ((F.seen files.old).faults name.now) ((F.seen files.new).faults name.now) }
    ensures too_long { IsErrOf result NoScript.TooLong → IsTooLong
        (F.seen files.old) (F.seen files.new) name.now }
    ensures not_text { IsErrOf result NoScript.NotText
        → IsNoText (F.seen files.old) name.now }
    ensures loaded { (F.seen files.new).loads ≡ raised 1 (F.seen files.old).loads }
    ensures later { IsLater (F.seen files.old) (F.seen files.new) }
{
    match files.read(alloc, name, LONGEST_SCRIPT as u64) {
        Ok(bytes) => require_text(bytes),
        Err(FilesError::Failed) => Err(NoScript::Unread),
        Err(FilesError::TooLong { .. }) => Err(NoScript::TooLong),
        Err(FilesError::NoMemory) => Err(NoScript::NoMemory),
    }
}

/// The bytes as a text, unless they are none.
fn require_text(bytes: Bytes) -> Result<Text, NoScript>
    ensures text { IfOk result (λ text. text ≡ bytes) }
    ensures no_text { IfErr result (λ why. (why ≡ NoScript.NotText) × (IsUtf8 bytes → ⊥)) }
{
    match String::from_utf8(bytes.into_vec()) {
        Ok(text) => Ok(Text::from_string(text)),
        Err(_) => Err(NoScript::NotText),
    }
}

/// The text that is asked for.
fn text_for<F: Files>(alloc: Global, args: &Args, files: &mut F) -> Result<Text, NoScript>
    ensures fits { IfOk result (λ text. length text ≤ longest_script) }
    ensures asked { IfOk result (IsScriptOf (Some args.now) (F.seen files.old)) }
    ensures none { IfErr result (λ why. HasNoScript (Some args.now) why
        (F.seen files.old) (F.seen files.new)) }
    ensures loaded { LoadsScript args.now (F.seen files.old) (F.seen files.new) }
    ensures later { IsLater (F.seen files.old) (F.seen files.new) }
    ensures unused { path_of args.now ≡ None → files.new ≡ files.old }
{
    match args {
        Args::Script { path, .. } => load_named(alloc, path.as_str(), files),
        Args::Demo { seed, .. } => match demo(alloc, *seed) {
            Ok(text) => Ok(text),
            Err(NoMemory) => Err(NoScript::NoMemory),
        },
    }
}

/// What is asked for, with its text.
fn source_for<F: Files>(alloc: Global, args: Args, files: &mut F) -> Result<Source, NoScript>
    ensures source { IfOk result (IsSource (Some args)
        (F.seen files.old) (F.seen files.new)) }
    ensures none { IfErr result (λ why. HasNoScript (Some args) why
        (F.seen files.old) (F.seen files.new)) }
    ensures unused { path_of args ≡ None → files.new ≡ files.old }
{
    match text_for(alloc, &args, files) {
        Ok(text) => Ok(Source { args, text }),
        Err(why) => Err(why),
    }
}

/// What the arguments ask for, with its text.
pub fn source_of<F: Files>(
    alloc: Global,
    arguments: &[String],
    files: &mut F,
) -> Result<Source, NoScript>
    ensures source { IfOk result (IsSource (args_of (map string_bytes arguments.now))
        (F.seen files.old) (F.seen files.new)) }
    ensures none { IfErr result (λ why. HasNoScript (args_of (map string_bytes arguments.now)) why
        (F.seen files.old) (F.seen files.new)) }
    ensures unused { script_name (map string_bytes arguments.now) ≡ None → files.new ≡ files.old }
{
    match args(alloc, arguments) {
        Ok(args) => source_for(alloc, args, files),
        Err(Usage::Refused) => Err(NoScript::Arguments),
        Err(Usage::NoMemory) => Err(NoScript::NoMemory),
    }
}
