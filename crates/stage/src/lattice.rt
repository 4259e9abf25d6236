// Lattices of nodes over 1, 3 or 4 channels, with the answer interpolated in tetrahedra.
ghost use Rattle.std.specs.Prelude.{◌≡◌, ◌-◌, ◌*◌, ◌^◌, ◌<◌, ◌≤◌};
ghost use Rattle.meaning.proofs.LatticeLaws.{lattices_lawful};
ghost use Rattle.meaning.specs.Colours.{number, nearest};
ghost use Rattle.meaning.specs.Lattices.{lattice, entries_of_lattice};
ghost use Rattle.stage.specs.Lattices.{cell, cell_exact, cell_sum, grid_of, lattice_entry};
ghost use Rattle.stage.specs.Lattices.{lattice_over, lattice_points, lattice_with, points, strides};
ghost use Rattle.stage.specs.declared.lattice.Cell.TheVariants.{Alone};

use crate::entries::Entries;
use crate::folding::colour_of;
use crate::legs::{IDLE, Leg, Legs};
use crate::traits::{Colour, Stage};
use meaning::{Channels, Faithful, HALF_COUNT, table_steepness};

// How many points a lattice has along each in-channel: 2 to 255.
#[derive(Clone, Copy, PartialEq, Eq, Debug)]
pub struct Grid(u8);

impl Grid {
    // That many points, or nothing where they are fewer than 2.
    pub fn new(points: u8) -> Option<Grid>
        ensures { result ≡ grid_of points }
    {
        (points >= 2).then_some(Grid(points))
    }

    pub fn points(self) -> u8
        ensures { result ≡ points self }
    {
        self.0
    }
}

impl Faithful for Grid {
    ghost use Rattle.std.proofs.Common.{rules};

    ghost equal = { Prim.search rules };

    ghost copied = { Prim.search rules };
}

// A lattice of `grid` points in each in-channel. From one node of the table to the next the last
// in-channel moves on first, and all outputs of a node stand together.
#[derive(Clone, Copy)]
pub struct Lattice<E> {
    pub(crate) ins: Channels,
    pub(crate) outs: Channels,
    pub(crate) grid: u8,
    pub table: E,
}

// Where a colour lies in a lattice: the legs of up to three channels, and before them that of the
// first of four.
#[derive(Drop)]
pub(crate) enum Cell {
    Alone(Legs),
    Paired(Leg, Legs),
}

// How many nodes some channels have together. The limits keep sums of their places within range.
pub(crate) fn node_count(grid: u8, channels: usize) -> usize
    requires { channels ≤ 4 }
    ensures value { result ≡ grid ^ channels }
    ensures few { channels < 4 → result ≤ 2 ^ 24 }
    ensures limit { result ≤ 2 ^ 32 }
{
    usize::from(grid).pow(channels as u32)
}

// How many nodes a lattice has.
pub fn lattice_nodes(ins: Channels, grid: u8) -> usize
    ensures value { result ≡ grid ^ number ins }
    ensures limit { result ≤ 2 ^ 32 }
{
    node_count(grid, ins.number())
}

// How many entries all nodes of a lattice have, one for each output of each node.
pub fn lattice_entries(ins: Channels, outs: Channels, grid: u8) -> usize
    ensures value { result ≡ entries_of_lattice ins outs grid }
    ensures limit { result ≤ 2 ^ 34 }
{
    lattice_nodes(ins, grid) * outs.number()
}

impl<E: Entries> Lattice<E> {
    // A lattice with 2 to 255 grid points, or nothing.
    pub fn new(ins: Channels, outs: Channels, grid: u8, table: E) -> Option<Lattice<E>>
    where
        E: Drop,
        ensures { result ≡ lattice_over ins outs grid table }
    {
        Some(Lattice::over(ins, outs, Grid::new(grid)?, table))
    }

    // A lattice with that many grid points.
    pub fn over(ins: Channels, outs: Channels, grid: Grid, table: E) -> Lattice<E>
        ensures { result ≡ lattice_with ins outs (points grid) table }
    {
        Lattice {
            ins,
            outs,
            grid: grid.points(),
            table,
        }
    }

    // Its grid points.
    pub fn grid(&self) -> Grid
        ensures { points result ≡ lattice_points self.now }
    {
        Grid(self.grid)
    }

    // Where the entries come from.
    pub fn table(&self) -> &E
        ensures { result.now ≡ self.now.table }
    {
        &self.table
    }

    // The steps from the first to the last grid point of a channel.
    pub(crate) fn steps(&self) -> u8
        ensures { result ≡ self.now.grid - 1 }
    {
        self.grid.saturating_sub(1)
    }

    // How many entries a step passes over in each of four in-channels: one node in the last of
    // them, and `grid` times as many in each channel before it.
    fn strides(&self) -> [u32; 4]
        ensures { result ≡ strides (number self.now.outs) self.now.grid }
    {
        let grid = u32::from(self.grid);
        let near = self.outs.number() as u32;
        [
            near * grid * grid * grid,
            near * grid * grid,
            near * grid,
            near,
        ]
    }

    // The legs of a colour.
    fn cell(&self, colour: &Colour) -> Cell
        ensures { result ≡ cell self.now.ins (number self.now.outs) self.now.grid colour.now }
    {
        let steps = self.steps();
        let [first, far, middle, near] = self.strides();
        match self.ins {
            Channels::One => Cell::Alone(Legs::sorted(
                Leg::new(colour[0], steps, near),
                IDLE,
                IDLE,
            )),
            Channels::Three => Cell::Alone(Legs::sorted(
                Leg::new(colour[0], steps, far),
                Leg::new(colour[1], steps, middle),
                Leg::new(colour[2], steps, near),
            )),
            Channels::Four => Cell::Paired(
                Leg::new(colour[0], steps, first),
                Legs::sorted(
                    Leg::new(colour[1], steps, far),
                    Leg::new(colour[2], steps, middle),
                    Leg::new(colour[3], steps, near),
                ),
            ),
        }
    }

    // The entry at a place of the table.
    pub(crate) fn entry(&self, place: usize) -> u16
        ensures { result ≡ lattice_entry E.Entries.counts self.now place }
    {
        self.table.entry(place)
    }

    // The sum of all samples, with places counted from `place`: the four corners of a tetrahedron,
    // weighed. The limit on `place` is that of the corners.
    pub(crate) fn tetrahedron(&self, legs: &Legs, place: usize) -> u32
        requires { place ≤ 2 ^ 42 }
        ensures value { let entry = lattice_entry E.Entries.counts self.now in
            result ≡ cell_sum entry (Alone legs.now) place }
        ensures limit { result ≤ 65535 * 65535 }
    {
        let [base, second, third, last] = legs.corners(place);
        legs.weigh(
            self.entry(base),
            self.entry(second),
            self.entry(third),
            self.entry(last),
        )
    }

    // All outputs of the answer.
    fn outputs(&self, cell: &Cell) -> Colour
        ensures { let entry = lattice_entry E.Entries.counts self.now in
            result ≡ nearest (cell_exact (number self.now.outs) entry cell.now) }
    {
        colour_of(self.outs.number(), |k| self.plane(k).value(cell))
    }
}

impl<E: Entries> Stage for Lattice<E> {
    ghost meaning = { λ s. lattice s.ins s.outs s.grid (E.Entries.counts s.table) };

    ghost lawful = { λ s. lattices_lawful s.ins s.outs s.grid (E.Entries.counts s.table) };

    fn ins(&self) -> Channels {
        self.ins
    }

    fn outs(&self) -> Channels {
        self.outs
    }

    fn steepness(&self) -> u32 {
        table_steepness(u16::from(self.grid), self.largest_step())
    }

    fn error(&self) -> u32 {
        HALF_COUNT
    }

    fn answer(&self, colour: &Colour) -> Colour {
        self.outputs(&self.cell(colour))
    }
}
