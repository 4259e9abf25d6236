// The kiosk tool: inspects profiles, quotes bounds, converts pictures, bakes links and runs colours through profiles.
#![tactic(auto)]

mod bake;
mod colours;
mod command;
mod convert;
mod failure;
mod figures;
mod inspect;
mod output;
mod picture;
mod press;
mod profiles;
mod progress;
mod quote;
mod raw;
mod tally;
mod usage;

use command::{BadCall, Command};
use failure::Failure;
use std::alloc::AllocError;
use std::process::ExitCode;
use std::{env, io};

// Carries a command out. A command that can go on after a failure tells it itself, and returns the status.
fn carry_out<'a>(rt: &HostRuntime, command: &Command<'a>) -> Result<ExitCode, Failure<'a>> {
    match command {
        Command::Help => print!(rt; "{}", usage::HELP)?,
        Command::Inspect(files) => return inspect::run(rt, files.as_slice()),
        Command::Quote(call) => quote::run(rt, call)?,
        Command::Convert(call) => convert::run(rt, call)?,
        Command::Bake(call) => bake::run(rt, call)?,
        Command::Colours(call) => colours::run(rt, call)?,
    }
    Ok(ExitCode::SUCCESS)
}

// Says what is wrong with a call, and how it is made.
fn tell_bad_call(rt: &HostRuntime, bad: &BadCall<'_>) -> io::Result<()> {
    let BadCall { wrong, usage } = bad;
    eprintln!(rt; "kiosk: {wrong}")?;
    eprintln!(rt; "usage: {usage}")
}

fn run(rt: &HostRuntime, arguments: &[String]) -> io::Result<ExitCode> {
    let command = match Command::read(rt.alloc(), arguments) {
        Ok(command) => command,
        Err(bad) => {
            tell_bad_call(rt, &bad)?;
            return Ok(ExitCode::FAILURE);
        }
    };
    match carry_out(rt, &command) {
        Ok(status) => Ok(status),
        Err(failure) => {
            eprintln!(rt; "kiosk: {failure}")?;
            Ok(ExitCode::FAILURE)
        }
    }
}

// The arguments behind the program's own name.
fn arguments(rt: &HostRuntime) -> io::Result<Vec<String>> {
    let collected: Result<Vec<String>, AllocError> = env::args(rt)?.skip(1).collect(rt.alloc());
    Ok(collected?)
}

fn main(rt: HostRuntime) -> ExitCode {
    match arguments(&rt).and_then(|arguments| run(&rt, arguments.as_slice())) {
        Ok(status) => status,
        Err(error) => {
            let _ = eprintln!(rt; "kiosk: {error}");
            ExitCode::FAILURE
        }
    }
}
