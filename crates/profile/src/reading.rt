// Reading an element: its first bytes tell its shape, and its tables lie behind them.
ghost use Rattle.std.specs.Prelude.{◌≡◌, ◌+◌, ◌^◌, ◌<◌, ◌≤◌, take, drop, length};
ghost use Rattle.profile.specs.Checks.{ruled};
ghost use Rattle.profile.specs.Elements.{input_size, nodes_size, output_size, tables_end, input_table, nodes_table, output_table, table_checks, laid_out, element_at, element_read};
ghost use Rattle.profile.specs.Views.{part_view, element_view, element_viewed, stages_over};
ghost use Rattle.profile.specs.Shapes.{input_length, output_length, shape_checks, shape, coefficients, coefficient_at};

use crate::bytes::{half, word};
use crate::element::{Element, Input, Kind, Lut, Part, Tables};
use crate::fault::Fault;
use meaning::Channels;
use stage::{Curves, Entries, Grid, Joined, Lattice, Matrix, TableLength, lattice_entries};

// What the first bytes of an element tell.
#[derive(Clone, Copy, PartialEq, Eq, Debug)]
pub(crate) struct Shape {
    pub kind: Kind,
    pub ins: Channels,
    pub outs: Channels,
    pub grid: Grid,
    pub input: TableLength,
    pub output: TableLength,
}

impl Shape {
    // The bytes of the input tables.
    fn input_size(&self) -> usize
        ensures value { result ≡ input_size self.now }
        ensures limit { result ≤ 2 ^ 20 }
    {
        self.kind.width() * (self.ins.number() * usize::from(self.input.entries()))
    }

    // The bytes of the nodes.
    fn nodes_size(&self) -> usize
        ensures value { result ≡ nodes_size self.now }
        ensures limit { result ≤ 2 ^ 35 }
    {
        self.kind.width() * lattice_entries(self.ins, self.outs, self.grid.points())
    }

    // The bytes of the output tables.
    fn output_size(&self) -> usize
        ensures value { result ≡ output_size self.now }
        ensures limit { result ≤ 2 ^ 20 }
    {
        self.kind.width() * (self.outs.number() * usize::from(self.output.entries()))
    }

    // Where in the element the tables end.
    fn tables_end(&self) -> usize
        ensures { result ≡ tables_end self.now }
    {
        self.kind.head() + self.input_size() + self.nodes_size() + self.output_size()
    }

    // The stages over the tables.
    fn stages<E: Entries>(&self, matrix: Option<Matrix>, input: E, nodes: E, output: E) -> Lut<E>
        ensures { result ≡ stages_over self.now matrix input nodes output }
    {
        let curves = Curves::over(self.ins, self.input, input);
        let lattice = Lattice::over(self.ins, self.outs, self.grid, nodes);
        Joined {
            first: Joined {
                first: Input { matrix, curves },
                second: lattice,
            },
            second: Curves::over(self.outs, self.output, output),
        }
    }
}

// The bytes of an element, and its place in the file, or 0 where they are read alone.
#[derive(Clone, Copy)]
pub(crate) struct Reader<'a> {
    pub place: u32,
    pub bytes: &'a [u8],
}

impl<'a> Reader<'a> {
    // How many entries each input table has.
    fn input_length(&self, kind: Kind) -> u16
        requires { 52 ≤ length self.now.bytes.now }
        ensures { result ≡ input_length self.now.bytes.now kind }
    {
        match kind {
            Kind::Lut8 => 256,
            Kind::Lut16 => half(self.bytes, 48),
        }
    }

    // How many each output table has.
    fn output_length(&self, kind: Kind) -> u16
        requires { 52 ≤ length self.now.bytes.now }
        ensures { result ≡ output_length self.now.bytes.now kind }
    {
        match kind {
            Kind::Lut8 => 256,
            Kind::Lut16 => half(self.bytes, 50),
        }
    }

    // The shape of an element between spaces of some channels.
    pub(crate) fn shape(&self, takes: Channels, gives: Channels) -> Result<Shape, Fault>
        ensures { let e = self.now.bytes.now in
            result ≡ ruled (shape_checks e self.now.place takes gives) (shape e takes gives) }
    {
        let element = self.place;
        // 40 more than the 12 that are named are 52
        let (signature, ins, outs, grid) = match self.bytes {
            [t0, t1, t2, t3, _, _, _, _, ins, outs, grid, _, rest @ ..] if rest.len() >= 40 => {
                ([*t0, *t1, *t2, *t3], *ins, *outs, *grid)
            }
            _ => return Err(Fault::Short { element }),
        };
        let kind = Kind::of(u32::from_be_bytes(signature)).ok_or(Fault::UnknownType { element })?;
        if usize::from(ins) != takes.number() {
            return Err(Fault::InChannels { element });
        }
        if usize::from(outs) != gives.number() {
            return Err(Fault::OutChannels { element });
        }
        let grid = Grid::new(grid).ok_or(Fault::GridPoints { element })?;
        let input = TableLength::new(self.input_length(kind)).ok_or(Fault::InputLength {
            element,
        })?;
        let output = TableLength::new(self.output_length(kind)).ok_or(Fault::OutputLength {
            element,
        })?;
        Ok(Shape {
            kind,
            ins: takes,
            outs: gives,
            grid,
            input,
            output,
        })
    }

    // Coefficient `index` of the matrix: four bytes, as a signed number.
    fn coefficient(&self, index: usize) -> i32
        requires long { 52 ≤ length self.now.bytes.now }
        requires nine { index < 9 }
        ensures { result ≡ coefficient_at self.now.bytes.now index }
    {
        word(self.bytes, 12 + 4 * index).cast_signed()
    }

    // The matrix, row after row. Written out, since a closure that gives signed numbers gets no proof.
    fn matrix(&self) -> Matrix
        requires { 52 ≤ length self.now.bytes.now }
        ensures { result.coefficients ≡ coefficients self.now.bytes.now }
    {
        Matrix::new([
            self.coefficient(0),
            self.coefficient(1),
            self.coefficient(2),
            self.coefficient(3),
            self.coefficient(4),
            self.coefficient(5),
            self.coefficient(6),
            self.coefficient(7),
            self.coefficient(8),
        ])
    }

    // Some of the element's bytes.
    fn part(&self, from: usize, size: usize) -> Part<'a>
        requires { from + size ≤ length self.now.bytes.now }
        ensures place { result.place ≡ self.now.place + from }
        ensures bytes { result.bytes.now ≡ take size (drop from self.now.bytes.now) }
    {
        Part {
            place: self.place as usize + from,
            bytes: &self.bytes[from..from + size],
        }
    }

    // The tables of an element of that shape.
    fn tables(&self, shape: &Shape) -> Tables<'a>
        requires { tables_end shape.now ≤ length self.now.bytes.now }
        ensures input { part_view result.input
            ≡ input_table self.now.bytes.now self.now.place shape.now }
        ensures nodes { part_view result.nodes
            ≡ nodes_table self.now.bytes.now self.now.place shape.now }
        ensures output { part_view result.output
            ≡ output_table self.now.bytes.now self.now.place shape.now }
    {
        let input_start = shape.kind.head();
        let nodes_start = input_start + shape.input_size();
        let output_start = nodes_start + shape.nodes_size();
        Tables {
            input: self.part(input_start, shape.input_size()),
            nodes: self.part(nodes_start, shape.nodes_size()),
            output: self.part(output_start, shape.output_size()),
        }
    }

    // The element of that shape.
    fn element(&self, shape: &Shape) -> Element<'a>
        requires long { 52 ≤ length self.now.bytes.now }
        requires inside { tables_end shape.now ≤ length self.now.bytes.now }
        ensures { element_view result ≡ laid_out self.now.bytes.now self.now.place shape.now }
    {
        let matrix = match shape.ins {
            Channels::Three => Some(self.matrix()),
            Channels::One | Channels::Four => None,
        };
        let Tables {
            input,
            nodes,
            output,
        } = self.tables(shape);
        match shape.kind {
            Kind::Lut8 => Element::Lut8(shape.stages(
                matrix,
                input.narrow(),
                nodes.narrow(),
                output.narrow(),
            )),
            Kind::Lut16 => Element::Lut16(shape.stages(
                matrix,
                input.wide(),
                nodes.wide(),
                output.wide(),
            )),
        }
    }

    // Whether the tables end within the element.
    fn check_tables(&self, shape: &Shape) -> Result<(), Fault>
        ensures { result ≡ ruled (table_checks self.now.bytes.now self.now.place shape.now) tt }
    {
        if shape.tables_end() > self.bytes.len() {
            return Err(Fault::Tables {
                element: self.place,
            });
        }
        Ok(())
    }

    // The element between spaces of some channels.
    pub(crate) fn read(&self, takes: Channels, gives: Channels) -> Result<Element<'a>, Fault>
        ensures { element_viewed result
            ≡ element_at self.now.bytes.now self.now.place takes gives }
    {
        let shape = self.shape(takes, gives)?;
        self.check_tables(&shape)?;
        Ok(self.element(&shape))
    }
}

impl<'a> Element<'a> {
    // The element that some bytes hold, between spaces of some channels, or the first fault. Places count from the first
    // of these bytes.
    pub fn read(bytes: &'a [u8], takes: Channels, gives: Channels) -> Result<Element<'a>, Fault>
        ensures { element_viewed result ≡ element_read bytes.now takes gives }
    {
        Reader { place: 0, bytes }.read(takes, gives)
    }
}
