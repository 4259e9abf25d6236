// The rows, links and profiles whose times bench/compare.sh sets beside those of another engine. bench/littlecms.c makes the
// same lattices, curves and pictures.
use crate::profiles::{LATTICE, Tone, Tones, open_often, opened, profile_of};
use crate::rows::{PIXELS, Way, fill, lattice, leaving_row, pixels, refused, round, table_of};
use crate::spent::Spent;
use crate::{Shape, scrambled};
use link::{Cmyk8, Converter, Pixel, Rgb8, Rgb16};
use meaning::Channels;
use stage::Stage;
use std::alloc::{AllocError, Global};
use std::fmt;

// What is printed: times, a line for each round, or the rows that leave.
#[derive(Clone, Copy)]
pub(crate) enum Task {
    Time { rounds: u32 },
    Leave,
}

// The grid points of links, and of an element's lattice.
const LINK_GRIDS: [u8; 2] = [17, 33];

const ELEMENT_GRID: u8 = 17;

// The curves of an element.
const TONES: Tones = Tones {
    input: Tone::Lower,
    output: Tone::Higher,
};

#[derive(Clone, Copy)]
enum Picture {
    Noise,
    Smooth,
}

impl Picture {
    fn name(self) -> &'static str {
        match self {
            Picture::Noise => "noise",
            Picture::Smooth => "smooth",
        }
    }

    fn count(self, number: u32) -> u16 {
        match self {
            Picture::Noise => scrambled(number),
            Picture::Smooth => smooth(number),
        }
    }

    // A row of it.
    fn row<P: Pixel>(self, heap: Global) -> Result<Vec<P>, AllocError> {
        let counts: Vec<u16> = (0u32..)
            .take(4 * PIXELS)
            .map(|number| self.count(number))
            .collect(heap)?;
        pixels(heap, counts.as_slice())
    }
}

// The count of a smooth picture: ramps along the row, one for each channel, with a little noise.
fn smooth(number: u32) -> u16 {
    let ramp = number.wrapping_mul(4).wrapping_add(20_000 * (number % 4)) % 65_536;
    (ramp as u16).saturating_add(scrambled(number) / 256)
}

// The entry of a lattice: a ramp through the whole table, with a little noise.
fn shaded(number: u32, count: usize) -> u16 {
    let ramp = u64::from(number) * 64_512 / (count as u64).max(1);
    (ramp.min(64_512) as u16).saturating_add(scrambled(number) / 64)
}

fn shaded_nodes(heap: Global, shape: Shape) -> Result<Vec<u16>, AllocError> {
    let count = shape.entries();
    (0u32..)
        .take(count)
        .map(|number| shaded(number, count))
        .collect(heap)
}

// A profile with such a lattice between curves.
fn shaded_profile(heap: Global, shape: Shape) -> anyhow::Result<Vec<u8>> {
    let nodes = shaded_nodes(heap, shape)?;
    let mut bytes = Vec::new(heap);
    for node in nodes.as_slice() {
        bytes.extend_from_slice(&node.to_be_bytes())?;
    }
    profile_of(heap, shape, TONES, bytes.as_slice(), 0)
}

// The words that a line begins with.
#[derive(Clone, Copy)]
struct Label<'a> {
    what: &'a str,
    kinds: &'a str,
    grid: u8,
    picture: &'a str,
}

impl fmt::Display for Label<'_> {
    fn fmt<W: fmt::Write>(&self, f: &mut fmt::Formatter<W>) -> fmt::Result {
        let Label {
            what,
            kinds,
            grid,
            picture,
        } = *self;
        write!(f, "{what} {kinds} {grid} {picture}")
    }
}

fn print_time(rt: &HostRuntime, label: Label<'_>, spent: Spent) -> anyhow::Result<()> {
    println!(rt; "{label} {spent}")?;
    Ok(())
}

// Prints a row as counts.
fn print_row<Q: Pixel>(rt: &HostRuntime, label: Label<'_>, row: &[Q]) -> anyhow::Result<()> {
    print!(rt; "{label}")?;
    for pixel in row {
        for count in pixel.show().iter().take(Q::channels().number()) {
            print!(rt; " {count}")?;
        }
    }
    println!(rt)?;
    Ok(())
}

// A task at rows of one kind.
#[derive(Clone, Copy)]
struct Rows<'a> {
    rt: &'a HostRuntime,
    task: Task,
    kinds: &'a str,
}

impl Rows<'_> {
    // Sends both pictures one way.
    fn send<S: Stage, P: Pixel, Q: Pixel>(
        self,
        label: Label<'_>,
        converter: &Converter<S>,
        way: Way<'_>,
    ) -> anyhow::Result<()> {
        let heap = self.rt.alloc();
        let mut leaving = leaving_row::<Q>(heap)?;
        for picture in [Picture::Noise, Picture::Smooth] {
            let label = Label {
                picture: picture.name(),
                ..label
            };
            let entering = picture.row::<P>(heap)?;
            self.send_row(
                label,
                converter,
                way,
                entering.as_slice(),
                leaving.as_mut_slice(),
            )?;
        }
        Ok(())
    }

    fn send_row<S: Stage, P: Pixel, Q: Pixel>(
        self,
        label: Label<'_>,
        converter: &Converter<S>,
        way: Way<'_>,
        entering: &[P],
        leaving: &mut [Q],
    ) -> anyhow::Result<()> {
        match self.task {
            Task::Time { rounds } => {
                for _ in 0..rounds {
                    let spent = round(self.rt, converter, way, entering, leaving)?;
                    print_time(self.rt, label, spent)?;
                }
                Ok(())
            }
            Task::Leave => {
                way.send(converter, entering, leaving).map_err(refused)?;
                print_row(self.rt, label, leaving)
            }
        }
    }

    // Rows through links of lattices, each with as many grid points as its lattice.
    fn send_through_links<P: Pixel, Q: Pixel>(self) -> anyhow::Result<()> {
        let heap = self.rt.alloc();
        for grid in LINK_GRIDS {
            let shape = Shape {
                ins: P::channels(),
                outs: Q::channels(),
                grid,
            };
            let nodes = shaded_nodes(heap, shape)?;
            let mut converter = Converter::new(lattice(shape, nodes.as_slice())?);
            let mut table = table_of(heap, shape)?;
            fill(self.rt, &mut converter, table.as_mut_slice(), grid)?;
            let label = self.label("link", grid);
            self.send::<_, P, Q>(label, &converter, Way::Link(table.as_slice()))?;
        }
        Ok(())
    }

    // Rows through an element, directly, and links that are filled through it.
    fn send_directly<P: Pixel, Q: Pixel>(self) -> anyhow::Result<()> {
        let shape = Shape {
            ins: P::channels(),
            outs: Q::channels(),
            grid: ELEMENT_GRID,
        };
        let bytes = shaded_profile(self.rt.alloc(), shape)?;
        let mut converter = Converter::new(opened(bytes.as_slice())?.element);
        let label = self.label("direct", ELEMENT_GRID);
        self.send::<_, P, Q>(label, &converter, Way::Direct)?;
        self.bake(&mut converter, shape)
    }

    // Fills links where times are wanted.
    fn bake<S: Stage>(self, converter: &mut Converter<S>, shape: Shape) -> anyhow::Result<()> {
        let Task::Time { rounds } = self.task else {
            return Ok(());
        };
        let grid = match shape.ins {
            Channels::Four => 17,
            _ => 33,
        };
        let mut table = table_of(self.rt.alloc(), Shape { grid, ..shape })?;
        for _ in 0..rounds {
            let spent = fill(self.rt, converter, table.as_mut_slice(), grid)?;
            print_time(self.rt, self.label("bake", grid), spent)?;
        }
        Ok(())
    }

    fn label(&self, what: &'static str, grid: u8) -> Label<'_> {
        Label {
            what,
            kinds: self.kinds,
            grid,
            picture: "-",
        }
    }
}

fn run_rows<P: Pixel, Q: Pixel>(rt: &HostRuntime, task: Task, kinds: &str) -> anyhow::Result<()> {
    let rows = Rows { rt, task, kinds };
    rows.send_through_links::<P, Q>()?;
    rows.send_directly::<P, Q>()
}

// Opens a profile where times are wanted.
fn run_opening(rt: &HostRuntime, task: Task) -> anyhow::Result<()> {
    let Task::Time { rounds } = task else {
        return Ok(());
    };
    let bytes = shaded_profile(rt.alloc(), LATTICE)?;
    let label = Label {
        what: "open",
        kinds: "RGB8-CMYK8",
        grid: LATTICE.grid,
        picture: "-",
    };
    for _ in 0..rounds {
        let spent = open_often(rt, bytes.as_slice())?;
        print_time(rt, label, spent)?;
    }
    Ok(())
}

pub(crate) fn run(rt: &HostRuntime, task: Task) -> anyhow::Result<()> {
    run_rows::<Rgb8, Rgb8>(rt, task, "RGB8-RGB8")?;
    run_rows::<Rgb8, Cmyk8>(rt, task, "RGB8-CMYK8")?;
    run_rows::<Cmyk8, Rgb8>(rt, task, "CMYK8-RGB8")?;
    run_rows::<Rgb16, Rgb16>(rt, task, "RGB16-RGB16")?;
    run_opening(rt, task)
}
