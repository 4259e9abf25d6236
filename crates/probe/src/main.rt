// Answers requests for colours, profiles and links, one line each, so that another engine can be compared with this one.
// docs/FORMATS.md says how a request and its answer are written.
#![tactic(auto)]

mod converter_run;
mod kinds;
mod ops;
mod profiles;
mod request;
mod stages;
mod table;
mod words;

use request::Request;
use std::alloc::{AllocError, Global};
use std::io::{BufRead, BufReader};
use std::process::ExitCode;
use std::str;
use words::{Unread, Words};

// The request that a line holds. A line that is no text holds none.
fn read(heap: Global, line: &[u8]) -> Result<Request, Unread> {
    let text = str::from_utf8(line).map_err(|_| Unread::Bad)?;
    Request::read(heap, Words::of(text))
}

// What is answered to a line.
fn answer(heap: Global, line: &[u8]) -> Result<String, AllocError> {
    match read(heap, line) {
        Ok(request) => request.answer(heap),
        Err(Unread::Bad) => "bad".to_string(heap),
        Err(Unread::Memory(error)) => Err(error),
    }
}

// Answers each line before the next one is read.
fn answer_all(rt: &HostRuntime) -> anyhow::Result<()> {
    let heap = rt.alloc();
    for line in BufReader::new(heap, rt.reader())?.split(heap, b'\n') {
        let text = answer(heap, line?.as_slice())?;
        println!(rt; "{text}")?;
    }
    Ok(())
}

fn main(rt: HostRuntime) -> ExitCode {
    match answer_all(&rt) {
        Ok(()) => ExitCode::SUCCESS,
        Err(error) => {
            let _ = eprintln!(rt; "probe: {error}");
            ExitCode::FAILURE
        }
    }
}
