// A profile of some 300 kB: how long it takes to open it and to work out its bound; and files at the longest length.
use crate::spent::Spent;
use crate::{Shape, scattered};
use anyhow::{Context, bail};
use meaning::Channels;
use profile::{Opened, Tag, open};
use stage::{Rated, Stage, lattice_entries};
use std::alloc::{AllocError, Global};
use std::time::Instant;

// The profile's lattice, and the entries of each of its curves.
pub(crate) const LATTICE: Shape = Shape {
    ins: Channels::Three,
    outs: Channels::Four,
    grid: 33,
};

const CURVE: u16 = 256;

// How often the profile is opened, since once is too short to be measured.
const TIMES: u32 = 1_000;

// The longest file that is opened.
const LONGEST: usize = 16_777_216;

fn push_word(bytes: &mut Vec<u8>, word: u32) -> Result<(), AllocError> {
    bytes.extend_from_slice(&word.to_be_bytes())?;
    Ok(())
}

// The space that has so many channels, in a profile's header.
fn space(channels: Channels) -> &'static [u8; 4] {
    match channels {
        Channels::One => b"GRAY",
        Channels::Three => b"RGB ",
        Channels::Four => b"CMYK",
    }
}

// The first bytes of a profile with one element, a lut16, and the element's own first bytes.
fn head(heap: Global, shape: Shape, length: u32, element: u32) -> Result<Vec<u8>, AllocError> {
    let Shape { ins, outs, grid } = shape;
    let mut bytes = Vec::new(heap);
    push_word(&mut bytes, length)?;
    bytes.resize(16, 0)?;
    bytes.extend_from_slice(space(ins))?;
    bytes.extend_from_slice(space(outs))?;
    bytes.resize(36, 0)?;
    bytes.extend_from_slice(b"acsp")?;
    bytes.resize(128, 0)?;
    push_word(&mut bytes, 1)?;
    bytes.extend_from_slice(b"A2B0")?;
    push_word(&mut bytes, 144)?;
    push_word(&mut bytes, element)?;
    bytes.extend_from_slice(b"mft2")?;
    bytes.extend_from_slice(&[0, 0, 0, 0, ins.number() as u8, outs.number() as u8, grid, 0])?;
    for coefficient in [65_536u32, 0, 0, 0, 65_536, 0, 0, 0, 65_536] {
        push_word(&mut bytes, coefficient)?;
    }
    bytes.extend_from_slice(&CURVE.to_be_bytes())?;
    bytes.extend_from_slice(&CURVE.to_be_bytes())?;
    Ok(bytes)
}

// The curves of a profile: they change nothing, or raise or lower the middle.
#[derive(Clone, Copy)]
pub(crate) enum Tone {
    Straight,
    Lower,
    Higher,
}

impl Tone {
    fn entry(self, index: u8) -> u16 {
        match self {
            Tone::Straight => 257 * u16::from(index),
            Tone::Lower => lowered(index),
            Tone::Higher => u16::MAX - lowered(255 - index),
        }
    }
}

// Half of the count, and half of its square.
fn lowered(index: u8) -> u16 {
    let index = u32::from(index);
    (index * (index + 255) * 257 / 510) as u16
}

fn push_curves(bytes: &mut Vec<u8>, channels: Channels, tone: Tone) -> Result<(), AllocError> {
    for _ in 0..channels.number() {
        for index in 0..=255 {
            bytes.extend_from_slice(&tone.entry(index).to_be_bytes())?;
        }
    }
    Ok(())
}

// The tones of a profile's curves.
#[derive(Clone, Copy)]
pub(crate) struct Tones {
    pub input: Tone,
    pub output: Tone,
}

// A profile whose lattice has those nodes, two bytes an entry. It is as long as it needs to be, or longer.
pub(crate) fn profile_of(
    heap: Global,
    shape: Shape,
    tones: Tones,
    nodes: &[u8],
    longer: usize,
) -> anyhow::Result<Vec<u8>> {
    let Shape { ins, outs, grid } = shape;
    let curves = (ins.number() + outs.number()) * usize::from(CURVE);
    let element = 52 + 2 * (lattice_entries(ins, outs, grid) + curves);
    let length = longer.max(144 + element);
    let mut bytes = head(heap, shape, u32::try_from(length)?, u32::try_from(element)?)?;
    push_curves(&mut bytes, ins, tones.input)?;
    bytes.extend_from_slice(nodes)?;
    push_curves(&mut bytes, outs, tones.output)?;
    bytes.resize(length, 0)?;
    Ok(bytes)
}

// A profile with nodes in no order.
fn scattered_profile(heap: Global, longer: usize) -> anyhow::Result<Vec<u8>> {
    let nodes = scattered::<u8>(heap, LATTICE.bytes())?;
    let tones = Tones {
        input: Tone::Straight,
        output: Tone::Straight,
    };
    profile_of(heap, LATTICE, tones, nodes.as_slice(), longer)
}

// Opens a profile many times, and returns how long that took.
pub(crate) fn open_often(rt: &HostRuntime, bytes: &[u8]) -> anyhow::Result<Spent> {
    let start = Instant::now(rt)?;
    for _ in 0..TIMES {
        if open(bytes, Tag::A2B0).is_err() {
            bail!("the profile was refused");
        }
    }
    Ok(Spent {
        nanoseconds: start.elapsed(rt)?.as_nanos(),
        things: u128::from(TIMES),
    })
}

pub(crate) fn opened(bytes: &[u8]) -> anyhow::Result<Opened<'_>> {
    open(bytes, Tag::A2B0)
        .ok()
        .context("the profile was refused")
}

// Prints the bound of a profile, and to standard error how long it took to work it out.
fn rate(rt: &HostRuntime) -> anyhow::Result<()> {
    let bytes = scattered_profile(rt.alloc(), 0)?;
    let spent = open_often(rt, bytes.as_slice())?;
    eprintln!(rt; "  opened in {spent} nanoseconds")?;
    let element = opened(bytes.as_slice())?.element;
    let start = Instant::now(rt)?;
    let rated = Rated::new(element);
    let spent = start.elapsed(rt)?.as_micros();
    let length = bytes.len();
    let steepness = rated.steepness();
    let error = rated.error();
    println!(rt;
        "a profile of {length} bytes: steepness {steepness} grains a count, error {error} grains"
    )?;
    eprintln!(rt; "  its bound in {spent} microseconds")?;
    Ok(())
}

// Prints whether a file of that length opens.
fn try_length(rt: &HostRuntime, length: usize) -> anyhow::Result<()> {
    let bytes = scattered_profile(rt.alloc(), length)?;
    match open(bytes.as_slice(), Tag::A2B0) {
        Ok(_) => println!(rt; "a file of {length} bytes opens")?,
        Err(fault) => {
            let number = fault.number();
            let place = fault.place();
            println!(rt; "a file of {length} bytes: fault {number}, byte {place}, {fault}")?;
        }
    }
    Ok(())
}

pub(crate) fn run(rt: &HostRuntime) -> anyhow::Result<()> {
    rate(rt)?;
    try_length(rt, LONGEST)?;
    try_length(rt, LONGEST + 1)
}
