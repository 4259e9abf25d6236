// Works out the steepness of large lattices, for which their tables are read whole, opens large profiles, and sends rows of
// pixels through lattices. How long that took goes to standard error, since it differs from run to run.
// With an argument it does its part of bench/compare.sh instead: `compare ROUNDS` prints times, and `leaving` prints rows.
#![tactic(auto)]

mod compare;
mod profiles;
mod rows;
mod spent;

use anyhow::{Context, bail};
use compare::Task;
use meaning::Channels;
use stage::{Entries, Lattice, Sample, Stage, Table, WideBytes, lattice_entries};
use std::alloc::{AllocError, Global};
use std::env;
use std::process::ExitCode;
use std::time::Instant;

// The channels and grid points of a lattice.
#[derive(Clone, Copy)]
struct Shape {
    ins: Channels,
    outs: Channels,
    grid: u8,
}

// Four inks to four, with 33 grid points.
const INKS: Shape = Shape {
    ins: Channels::Four,
    outs: Channels::Four,
    grid: 33,
};

// The largest grid, with three in-channels and one output: 16 million entries.
const FINE: Shape = Shape {
    ins: Channels::Three,
    outs: Channels::One,
    grid: 255,
};

impl Shape {
    fn entries(self) -> usize {
        lattice_entries(self.ins, self.outs, self.grid)
    }

    // Two for each entry.
    fn bytes(self) -> usize {
        2 * lattice_entries(self.ins, self.outs, self.grid)
    }
}

// A count that goes with a number, without an order that can be seen: twice multiplied, with the upper half mixed in.
pub(crate) fn scrambled(number: u32) -> u16 {
    let once = number.wrapping_mul(2_654_435_761);
    ((once ^ (once >> 15)).wrapping_mul(2_246_822_519) >> 16) as u16
}

// Samples in no order, the same in every run.
pub(crate) fn scattered<S: Sample>(heap: Global, count: usize) -> Result<Vec<S>, AllocError> {
    (0u32..)
        .take(count)
        .map(|number| S::nearest(scrambled(number)))
        .collect(heap)
}

// Prints the steepness of a lattice, and to standard error how long it took to work it out.
fn scan<E: Entries + Drop>(
    rt: &HostRuntime,
    shape: Shape,
    width: &str,
    table: E,
) -> anyhow::Result<()> {
    let Shape { ins, outs, grid } = shape;
    let entries = shape.entries();
    let lattice = Lattice::new(ins, outs, grid, table).context("a lattice was refused")?;
    let start = Instant::now(rt)?;
    let steepness = lattice.steepness();
    let spent = start.elapsed(rt)?.as_micros();
    let ins = ins.number();
    let outs = outs.number();
    println!(rt;
        "{grid} points, {ins} to {outs} channels, {entries} entries of {width}: {steepness} grains a count"
    )?;
    eprintln!(rt; "  in {spent} microseconds")?;
    Ok(())
}

fn scan_all(rt: &HostRuntime) -> anyhow::Result<()> {
    let heap = rt.alloc();
    let bytes = scattered(heap, INKS.bytes())?;
    scan(rt, INKS, "two bytes", WideBytes(bytes.as_slice()))?;
    let numbers = scattered::<u16>(heap, INKS.entries())?;
    scan(rt, INKS, "16 bits", Table(numbers.as_slice()))?;
    let bytes = scattered::<u8>(heap, FINE.entries())?;
    scan(rt, FINE, "8 bits", Table(bytes.as_slice()))
}

// What is the same in every run.
fn run_all(rt: &HostRuntime) -> anyhow::Result<()> {
    scan_all(rt)?;
    profiles::run(rt)?;
    rows::run(rt)
}

fn run_arguments(rt: &HostRuntime) -> anyhow::Result<()> {
    let arguments: Vec<String> = env::args(rt)?.skip(1).collect(rt.alloc())?;
    let mut words = arguments.iter().map(|word| word.as_str());
    match (words.next(), words.next()) {
        (None, _) => run_all(rt),
        (Some("compare"), Some(rounds)) => {
            let rounds = rounds.parse().ok().context("ROUNDS is a number")?;
            compare::run(rt, Task::Time { rounds })
        }
        (Some("leaving"), None) => compare::run(rt, Task::Leave),
        _ => bail!("name nothing, or compare and how many rounds, or leaving"),
    }
}

fn main(rt: HostRuntime) -> ExitCode {
    match run_arguments(&rt) {
        Ok(()) => ExitCode::SUCCESS,
        Err(error) => {
            let _ = eprintln!(rt; "bench: {error}");
            ExitCode::FAILURE
        }
    }
}
