// Writes a full link as an element, reads the element back and compares the two.
use crate::shown::Refused;
use anyhow::bail;
use link::Converter;
use meaning::Channels;
use profile::Element;
use stage::{Colour, Grid, Lattice, Stage, Table, lattice_nodes};

// The colours at which a link and its element are compared: corners, grays and odd ones. A link looks at the counts of
// its own channels only.
const COLOURS: [Colour; 20] = [
    [0, 0, 0, 0],
    [65_535, 0, 0, 0],
    [0, 65_535, 0, 0],
    [0, 0, 65_535, 0],
    [0, 0, 0, 65_535],
    [65_535, 65_535, 0, 0],
    [65_535, 0, 65_535, 0],
    [0, 65_535, 65_535, 65_535],
    [65_535, 65_535, 65_535, 65_535],
    [1, 1, 1, 1],
    [16_384, 16_384, 16_384, 16_384],
    [32_767, 32_767, 32_767, 32_767],
    [32_768, 32_768, 32_768, 32_768],
    [65_534, 65_534, 65_534, 65_534],
    [1, 2, 3, 4],
    [257, 514, 65_534, 771],
    [10_001, 20_003, 30_011, 40_009],
    [40_000, 20_000, 1_000, 60_000],
    [54_321, 12_345, 33_333, 22_222],
    [65_535, 32_768, 1, 0],
];

// Where in an element its grid points stand.
const GRID_PLACE: usize = 10;

// A link as the node table holds it.
#[derive(Clone, Copy)]
struct Held<'a> {
    ins: Channels,
    outs: Channels,
    grid: Grid,
    table: &'a [u16],
}

impl<'a> Held<'a> {
    fn nodes(&self) -> usize {
        lattice_nodes(self.ins, self.grid.points())
    }

    fn lattice(&self) -> Lattice<Table<'a, u16>> {
        Lattice::over(self.ins, self.outs, self.grid, Table(self.table))
    }

    // How many nodes an element has as the table has them.
    fn nodes_alike(&self, element: &Element<'_>) -> usize {
        let outs = self.outs.number();
        let stored = element.tables().nodes.bytes.chunks(2 * outs);
        let held = self.table.chunks(outs).take(self.nodes());
        held.zip(stored)
            .filter(|(numbers, bytes)| is_stored(numbers, bytes))
            .count()
    }
}

// Whether these bytes are these numbers, two bytes each and the high one first.
fn is_stored(numbers: &[u16], bytes: &[u8]) -> bool {
    let (pairs, rest) = bytes.as_chunks::<2>();
    let each = numbers
        .iter()
        .zip(pairs)
        .all(|(number, pair)| number.to_be_bytes() == *pair);
    each && rest.is_empty() && numbers.len() == pairs.len()
}

// FNV-1a with 64 bits.
fn checksum(bytes: &[u8]) -> u64 {
    let mut sum = 0xcbf2_9ce4_8422_2325u64;
    for byte in bytes {
        sum = (sum ^ u64::from(*byte)).wrapping_mul(0x0000_0100_0000_01b3);
    }
    sum
}

// How many of the colours an element answers as the link does.
fn colours_alike(held: &Held<'_>, element: &Element<'_>) -> usize {
    let lattice = held.lattice();
    COLOURS
        .iter()
        .filter(|colour| element.answer(colour) == lattice.answer(colour))
        .count()
}

// Whether the link, written once more and read back, answers a colour as before.
fn reads_back<S: Stage>(
    converter: &Converter<S>,
    held: &Held<'_>,
    output: &mut [u8],
    colour: &Colour,
) -> bool {
    converter.read_back(held.table, output, colour) == Ok(held.lattice().answer(colour))
}

// Reads back what was written of a link, tells how much of the link it has again, and fails where that is not all.
fn compare<S: Stage>(
    rt: &HostRuntime,
    converter: &Converter<S>,
    held: &Held<'_>,
    output: &mut [u8],
) -> anyhow::Result<()> {
    let length = output.len();
    let sum = checksum(output);
    let Ok(element) = Element::read(output, held.ins, held.outs) else {
        bail!("what was written of a link is no element");
    };
    let alike = held.nodes_alike(&element);
    let nodes = held.nodes();
    let points = output.get(GRID_PLACE).copied().unwrap_or(0);
    let answered = colours_alike(held, &element);
    let colours = COLOURS.len();
    print!(rt; "  write: {length} bytes, checksum {sum:016x}; read back: {points} grid points, ")?;
    println!(rt; "{alike} of {nodes} nodes alike, {answered} of {colours} colours answered alike")?;
    if points != held.grid.points() || alike != nodes || answered != colours {
        bail!("a written link was read back as another one");
    }
    if !reads_back(converter, held, output, &COLOURS[17]) {
        bail!("a link does not answer by what it writes");
    }
    Ok(())
}

// Writes the link as an element, reads it back and compares the two.
pub(crate) fn write_link<S: Stage>(
    rt: &HostRuntime,
    converter: &Converter<S>,
    table: &[u16],
) -> anyhow::Result<()> {
    let ins = converter.stage().ins();
    let outs = converter.stage().outs();
    let held = converter.state().grid().map(|grid| Held {
        ins,
        outs,
        grid,
        table,
    });
    let room = converter.element_length().unwrap_or(0);
    let mut output = vec![in rt.alloc(); 0; room]?;
    match (converter.write(table, output.as_mut_slice()), held) {
        (Ok(length), Some(held)) => {
            output.truncate(length);
            compare(rt, converter, &held, output.as_mut_slice())
        }
        (Ok(_), None) => bail!("a link was written where there is none"),
        (Err(refusal), _) => {
            println!(rt; "  write: {}", Refused(refusal))?;
            Ok(())
        }
    }
}
