// Runs the jobs that its arguments name, or tests itself, and prints what comes of them with the bounds.
#![tactic(auto)]

mod job;
mod profiles;
mod row_run;
mod run;
mod samples;
mod selftest;
mod shown;
mod steps;
mod work;
mod written;

use anyhow::{anyhow, bail};
use job::Job;
use std::process::ExitCode;
use std::{env, fs};

// The part of a path in front of the file's name.
fn folder_of(path: &str) -> &str {
    match path.rfind('/') {
        Some(end) => &path[..=end],
        None => "",
    }
}

// Reads and runs one job. A job with a wrong line is not run.
fn run_job(rt: &HostRuntime, path: &str) -> anyhow::Result<()> {
    println!(rt; "job {path}")?;
    let text = fs::read_to_string(rt, path)?;
    match Job::read(rt.alloc(), text.as_str()) {
        Ok(job) => run::run(rt, &job, folder_of(path)),
        Err(bad) => {
            println!(rt; "  not run, {bad}")?;
            bail!("the job was not run")
        }
    }
}

// One argument: a job's path, or the word selftest.
fn run_argument(rt: &HostRuntime, argument: &str) -> anyhow::Result<()> {
    match argument {
        "selftest" => selftest::run(rt),
        path => run_job(rt, path),
    }
}

// Runs every argument; one that fails is reported, and the others are run all the same.
fn run_each(rt: &HostRuntime, arguments: &[String]) -> anyhow::Result<()> {
    let mut outcome = Ok(());
    for argument in arguments {
        if let Err(error) = run_argument(rt, argument.as_str()) {
            eprintln!(rt; "jobs: {argument}: {error}")?;
            outcome = Err(anyhow!("not everything was run"));
        }
    }
    outcome
}

fn run_arguments(rt: &HostRuntime) -> anyhow::Result<()> {
    let arguments: Vec<String> = env::args(rt)?.skip(1).collect(rt.alloc())?;
    if arguments.is_empty() {
        bail!("name one or more job files, or selftest");
    }
    run_each(rt, arguments.as_slice())
}

fn main(rt: HostRuntime) -> ExitCode {
    match run_arguments(&rt) {
        Ok(()) => ExitCode::SUCCESS,
        Err(error) => {
            let _ = eprintln!(rt; "jobs: {error}");
            ExitCode::FAILURE
        }
    }
}
