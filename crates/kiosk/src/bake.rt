// A whole link of a chain of profiles, written as an element.
use crate::command::{BakeCall, LinkCall};
use crate::failure::Failure;
use crate::figures::{Bound, print_stage};
use crate::output::Output;
use crate::press::Press;
use crate::profiles::{files_of, opened};
use link::Refusal;
use std::alloc::Global;

// The bytes of the full link.
fn element_of<'a>(heap: Global, press: &Press<'_>) -> Result<Vec<u8>, Failure<'a>> {
    let converter = press.converter();
    let room = converter.element_length().ok_or(Refusal::NoLink)?;
    let mut bytes = vec![in heap; 0; room]?;
    let length = converter.write(press.table(), bytes.as_mut_slice())?;
    bytes.truncate(length);
    Ok(bytes)
}

// Prints what was written, and the bound that the link keeps.
fn print_link<'a>(
    rt: &HostRuntime,
    call: &BakeCall<'a>,
    press: &Press<'_>,
    bytes: usize,
) -> Result<(), Failure<'a>> {
    let points = call.grid.points();
    let nodes = press.nodes().ok_or(Refusal::NoLink)?;
    let error = press.converter().quote().link.ok_or(Refusal::NoLink)?;
    let bound = Bound(error);
    let path = call.output;
    println!(rt; "{path}: a link of {points} grid points, {nodes} nodes, {bytes} bytes")?;
    println!(rt; "each answer within {bound}")?;
    Ok(())
}

pub(crate) fn run<'a>(rt: &HostRuntime, call: &BakeCall<'a>) -> Result<(), Failure<'a>> {
    let heap = rt.alloc();
    let profiles = call.profiles.as_slice();
    let files = files_of(rt, profiles)?;
    let mut press = Press::new(heap, opened(rt, profiles, files.as_slice())?);
    press.begin(
        heap,
        LinkCall {
            grid: call.grid,
            budget: None,
        },
    )?;
    press.fill()?;
    let bytes = element_of(heap, &press)?;
    let mut output = Output::create(rt, call.output)?;
    let outcome = output.write(bytes.as_slice());
    output.finish(rt, outcome)?;
    print_stage(rt, press.stage())?;
    print_link(rt, call, &press, bytes.len())
}
