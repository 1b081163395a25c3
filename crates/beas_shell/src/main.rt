//! The program `beas`: the files and standard streams of the system, handed to the engine.
#![tactic(auto)]

ghost use Rattle.std.specs.Prelude.{◌≡◌, ◌<◌};

use beas_core::{Limits, Steps};
use beas_run::run;
use real_streams::{RealFiles, RealSink};
use session::Session;
use std::env;
use std::io::{self, ErrorKind};
use std::marker::Brand;
use std::process::ExitCode;
use std::random::RandomSource;
use std::sync::ledger::{Blank, Ledger};

/// The status where memory runs out for the arguments.
const NO_MEMORY: u8 = 5;

/// The status where the system doesn't give the arguments, since one isn't UTF-8.
const NO_ARGUMENTS: u8 = 8;

/// The arguments of the command line, the program's name first. The system doesn't give them where one isn't UTF-8.
fn arguments_of(rt: &HostRuntime) -> io::Result<Vec<String>> {
    let mut arguments = Vec::new(rt.alloc());
    for argument in env::args(rt)? {
        arguments.push(argument)?;
    }
    Ok(arguments)
}

/// The arguments after the program's name.
fn after_first(arguments: &[String]) -> &[String] {
    match arguments {
        [_, named @ ..] => named,
        [] => arguments,
    }
}

/// A seed for the maps of this run, so that nobody can choose values that collide in them. It is 0 where the system gives
/// no random number: then answers are the same, and come as fast for values that weren't chosen so.
fn seed_of(rt: &HostRuntime) -> u64 {
    let mut bytes = [0; 8];
    match rt.fill_bytes(&mut bytes) {
        Ok(()) => u64::from_le_bytes(bytes),
        Err(_) => 0,
    }
}

/// Runs what the arguments ask for, over a session without tables and the system's files and streams.
fn run_asked<L: Ledger>(rt: &HostRuntime, arguments: &[String], steps: &mut Steps<L>) -> u8 {
    let mut session = Session::seeded(rt.alloc(), Limits::standard(), None, false, seed_of(rt));
    let mut files = RealFiles::new(rt);
    let mut out = RealSink::new(rt.stdout());
    let mut err = RealSink::new(rt.stderr());
    let status = run(
        rt.alloc(),
        &mut session,
        arguments,
        &mut files,
        &mut out,
        &mut err,
        steps,
    );
    session.discard();
    status
}

/// Runs what the arguments of the command line ask for, with one counter of reads.
fn start<L: Ledger>(rt: &HostRuntime, blank: Blank) -> u8
    requires name { blank.name ≡ L.name }
    requires parts { blank.parts ≡ L.parts }
    requires some { 0 < blank.parts }
{
    let mut steps = Steps::<L>::start(blank);
    match arguments_of(rt) {
        Ok(arguments) => run_asked(rt, after_first(arguments.as_slice()), &mut steps),
        Err(why) if why.kind() == ErrorKind::OutOfMemory => NO_MEMORY,
        Err(_) => NO_ARGUMENTS,
    }
}

fn main(rt: HostRuntime) -> ExitCode {
    ExitCode::from(start::<Brand>(&rt, Blank::new(1)))
}
