// Links: how long it takes to fill one, and rows of pixels directly and through it, a node and a pixel.
use crate::spent::Spent;
use crate::{Shape, scattered};
use anyhow::{Context, anyhow};
use link::{Cmyk8, Converter, Pixel, Refusal, Rgb8, Rgb16};
use stage::{Lattice, NodeTable, Stage, Table};
use std::alloc::{AllocError, Global};
use std::time::Instant;

// The grid points of the link, and of the lattice that is its stage.
const GRID: u8 = 33;

const STAGE_GRID: u8 = 9;

// The pixels of a row.
pub(crate) const PIXELS: usize = 4_096;

// How often a row is sent in a round, and the rounds, of which the shortest tells how long a pixel takes: the others were
// held up.
const TIMES: u32 = 100;

const ROUNDS: u32 = 20;

// Pixels of counts, four for each.
pub(crate) fn pixels<P: Pixel>(heap: Global, counts: &[u16]) -> Result<Vec<P>, AllocError> {
    let (colours, _) = counts.as_chunks::<4>();
    colours.iter().map(|colour| P::make(colour)).collect(heap)
}

// A number that goes with a row's counts.
fn checksum<P: Pixel>(row: &[P]) -> u32 {
    let mut sum = 0u32;
    for pixel in row {
        for count in pixel.show() {
            sum = sum.wrapping_mul(31).wrapping_add(u32::from(count));
        }
    }
    sum
}

// Which way a row goes.
#[derive(Clone, Copy)]
pub(crate) enum Way<'a> {
    Direct,
    Link(&'a [u16]),
}

impl Way<'_> {
    pub(crate) fn send<S: Stage, P: Pixel, Q: Pixel>(
        self,
        converter: &Converter<S>,
        entering: &[P],
        leaving: &mut [Q],
    ) -> Result<u32, Refusal> {
        match self {
            Way::Direct => converter.row(entering, leaving),
            Way::Link(table) => converter.link_row(table, entering, leaving),
        }
    }

    fn name(self) -> &'static str {
        match self {
            Way::Direct => "directly",
            Way::Link(_) => "through the link",
        }
    }
}

pub(crate) fn refused(refusal: Refusal) -> anyhow::Error {
    anyhow!("a call was refused: {refusal}")
}

// Sends a row a hundred times, and returns how long a pixel took.
pub(crate) fn round<S: Stage, P: Pixel, Q: Pixel>(
    rt: &HostRuntime,
    converter: &Converter<S>,
    way: Way<'_>,
    entering: &[P],
    leaving: &mut [Q],
) -> anyhow::Result<Spent> {
    let start = Instant::now(rt)?;
    for _ in 0..TIMES {
        way.send(converter, entering, leaving).map_err(refused)?;
    }
    Ok(Spent {
        nanoseconds: start.elapsed(rt)?.as_nanos(),
        things: u128::from(TIMES) * PIXELS as u128,
    })
}

// Sends a row in rounds. Prints the bound and the checksum of what leaves, and to standard error how long a pixel took in the
// shortest round.
fn send<S: Stage, P: Pixel, Q: Pixel>(
    rt: &HostRuntime,
    converter: &Converter<S>,
    way: Way<'_>,
    entering: &[P],
    leaving: &mut [Q],
) -> anyhow::Result<()> {
    let mut shortest = round(rt, converter, way, entering, leaving)?;
    for _ in 1..ROUNDS {
        let spent = round(rt, converter, way, entering, leaving)?;
        shortest.nanoseconds = shortest.nanoseconds.min(spent.nanoseconds);
    }
    let bound = way.send(converter, entering, leaving).map_err(refused)?;
    let name = way.name();
    let sum = checksum(leaving);
    println!(rt; "  {name}: bound {bound} grains, checksum {sum}")?;
    eprintln!(rt; "  a pixel: {shortest} nanoseconds")?;
    Ok(())
}

// Fills a link, and returns how many nodes it has and how long they took.
pub(crate) fn fill<S: Stage>(
    rt: &HostRuntime,
    converter: &mut Converter<S>,
    table: &mut [u16],
    grid: u8,
) -> anyhow::Result<Spent> {
    converter.begin(table, u32::from(grid)).map_err(refused)?;
    let start = Instant::now(rt)?;
    let filled = converter.fill(table, usize::MAX).map_err(refused)?;
    Ok(Spent {
        nanoseconds: start.elapsed(rt)?.as_nanos(),
        things: filled.stored as u128,
    })
}

// A table for a link of a stage.
pub(crate) fn table_of(heap: Global, shape: Shape) -> Result<Vec<u16>, AllocError> {
    vec![in heap; 0u16; shape.entries()]
}

// Where a row leaves to.
pub(crate) fn leaving_row<Q: Pixel>(heap: Global) -> Result<Vec<Q>, AllocError> {
    vec![in heap; Q::make(&[0, 0, 0, 0]); PIXELS]
}

pub(crate) fn lattice(shape: Shape, nodes: &[u16]) -> anyhow::Result<Lattice<NodeTable<'_>>> {
    Lattice::new(shape.ins, shape.outs, shape.grid, Table(nodes)).context("a lattice was refused")
}

// Fills a link of a lattice, prints how many nodes it has, and to standard error how long each took, and sends a row directly
// and through it.
fn fill_and_send<P: Pixel, Q: Pixel>(rt: &HostRuntime, kinds: &str) -> anyhow::Result<()> {
    let heap = rt.alloc();
    let shape = Shape {
        ins: P::channels(),
        outs: Q::channels(),
        grid: STAGE_GRID,
    };
    let nodes = scattered::<u16>(heap, shape.entries())?;
    let mut converter = Converter::new(lattice(shape, nodes.as_slice())?);
    let mut table = table_of(
        heap,
        Shape {
            grid: GRID,
            ..shape
        },
    )?;
    let spent = fill(rt, &mut converter, table.as_mut_slice(), GRID)?;
    let stored = spent.things;
    println!(rt; "{kinds}: a link of {stored} nodes")?;
    eprintln!(rt; "  a node: {spent} nanoseconds")?;
    let counts = scattered::<u16>(heap, 4 * PIXELS)?;
    let entering = pixels::<P>(heap, counts.as_slice())?;
    let mut leaving = leaving_row::<Q>(heap)?;
    for way in [Way::Direct, Way::Link(table.as_slice())] {
        send(
            rt,
            &converter,
            way,
            entering.as_slice(),
            leaving.as_mut_slice(),
        )?;
    }
    Ok(())
}

pub(crate) fn run(rt: &HostRuntime) -> anyhow::Result<()> {
    fill_and_send::<Rgb8, Rgb8>(rt, "RGB8 to RGB8")?;
    fill_and_send::<Rgb8, Cmyk8>(rt, "RGB8 to CMYK8")?;
    fill_and_send::<Cmyk8, Rgb8>(rt, "CMYK8 to RGB8")?;
    fill_and_send::<Rgb16, Rgb16>(rt, "RGB16 to RGB16")
}
