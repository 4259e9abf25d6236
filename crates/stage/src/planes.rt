// One output of a lattice: its value in a cell, and how steep it is: the largest differences of
// neighbouring nodes, added up over the in-channels.
ghost use Rattle.std.specs.Prelude.{◌≡◌, ◌+◌, ◌-◌, ◌*◌, ◌^◌, ◌<◌, ◌≤◌};
ghost use Rattle.meaning.specs.Colours.{number, rounded};
ghost use Rattle.meaning.specs.Lattices.{largest_along, lattice_step, total_step};
ghost use Rattle.stage.specs.Lattices.{cell_sum, cell_terms, lattice_entry, output_of_node};
ghost use Rattle.stage.specs.Lattices.{step_of_block, step_of_blocks, step_of_output};
ghost use Rattle.stage.specs.declared.lattice.Cell.TheVariants.{Paired};

use crate::entries::Entries;
use crate::folding::largest;
use crate::lattice::{Cell, Lattice, node_count};
use crate::legs::{Leg, Legs};
use crate::weighing::{PAIRS, SAMPLES, blend, nearest};

// One output of all nodes of a lattice.
#[derive(Drop)]
pub(crate) struct Plane<'a, E> {
    lattice: &'a Lattice<E>,
    output: usize,
    ghost inside: { output < 4 },
}

// Along one channel, how many nodes the channels before it have together, and those after it.
#[derive(Clone, Copy)]
struct Axis {
    before: usize,
    after: usize,
    ghost few_before: { before ≤ 2 ^ 24 },
    ghost few_after: { after ≤ 2 ^ 24 },
}

impl<E: Entries> Lattice<E> {
    // One output, by its number.
    pub(crate) fn plane(&self, output: usize) -> Plane<'_, E>
        requires { output < 4 }
        ensures lattice { result.lattice.now ≡ self.now }
        ensures output { result.output ≡ output }
    {
        Plane {
            lattice: self,
            output,
        }
    }

    // The axis of channel k.
    fn axis(&self, k: usize) -> Axis
        requires { k < number self.now.ins }
        ensures before { result.before ≡ self.now.grid ^ k }
        ensures after { result.after ≡ self.now.grid ^ (number self.now.ins - (k + 1)) }
    {
        Axis {
            before: node_count(self.grid, k),
            after: node_count(self.grid, self.ins.number() - (k + 1)),
        }
    }

    // The largest of the outputs' total steps.
    pub(crate) fn largest_step(&self) -> u32
        ensures { let counts = E.Entries.counts self.now.table in
            result ≡ lattice_step self.now.ins self.now.outs self.now.grid counts }
    {
        largest(self.outs.number(), |output| self.plane(output).total_step())
    }
}

impl<E: Entries> Plane<'_, E> {
    // The sum of all pairs of samples: two sums, of which the samples of the first channel read one
    // or the other.
    fn pairs(&self, first: &Leg, legs: &Legs) -> u64
        ensures value { let entry = lattice_entry E.Entries.counts self.now.lattice.now in
            result ≡ cell_sum entry (Paired first.now legs.now) self.now.output }
        ensures limit { result ≤ 65535 * (65535 * 65535) }
    {
        let place = self.output + first.start();
        let low = self.lattice.tetrahedron(legs, place);
        let high = self
            .lattice
            .tetrahedron(legs, place + first.stride as usize);
        blend(low, high, first.rest)
    }

    // The answer in a cell: the sum of all samples, or of all their pairs, rounded once.
    pub(crate) fn value(&self, cell: &Cell) -> u16
        ensures { let entry = lattice_entry E.Entries.counts self.now.lattice.now in
            result ≡ rounded (cell_sum entry cell.now self.now.output) (cell_terms cell.now) }
    {
        match cell {
            Cell::Alone(legs) => nearest::<SAMPLES>(u64::from(
                self.lattice.tetrahedron(legs, self.output),
            )),
            Cell::Paired(first, legs) => nearest::<PAIRS>(self.pairs(first, legs)),
        }
    }

    // The output of a node. Its number is limited, here and below, so that its entry has a place.
    fn at(&self, node: usize) -> u16
        requires { node ≤ 2 ^ 60 }
        ensures { let lattice = self.now.lattice.now in
            result ≡ output_of_node E.Entries.counts lattice self.now.output node }
    {
        self.lattice
            .entry(node * self.lattice.outs.number() + self.output)
    }

    // The difference of a node and its neighbour along an axis.
    fn step(&self, node: usize, axis: &Axis) -> u32
        requires { node ≤ 2 ^ 58 }
        ensures { let lattice = self.now.lattice.now in
            result ≡ step_of_output E.Entries.counts lattice self.now.output axis.now.after node }
    {
        u32::from(self.at(node).abs_diff(self.at(node + axis.after)))
    }

    // The largest difference where the channel's own indices run once through a block of nodes,
    // from the node `first` on.
    fn block_step(&self, first: usize, axis: &Axis) -> u32
        requires { first ≤ 2 ^ 56 }
        ensures { let lattice = self.now.lattice.now in
            result ≡ step_of_block E.Entries.counts lattice self.now.output axis.now.after first }
    {
        let pairs = usize::from(self.lattice.steps()) * axis.after;
        largest(pairs, |n| self.step(first + n, axis))
    }

    // The largest difference along an axis: in each block, one for each combination of indices of
    // the channels before.
    fn axis_step(&self, axis: &Axis) -> u32
        ensures { let lattice = self.now.lattice.now in
            let before = axis.now.before in
            result ≡ step_of_blocks E.Entries.counts lattice self.now.output before axis.now.after }
    {
        let block = usize::from(self.lattice.grid) * axis.after;
        largest(axis.before, |a| self.block_step(a * block, axis))
    }

    // The same along channel k.
    fn step_along(&self, k: usize) -> u32
        requires { k < number self.now.lattice.now.ins }
        ensures { let lattice = self.now.lattice.now in
            let output = output_of_node E.Entries.counts lattice self.now.output in
            result ≡ largest_along lattice.grid k (number lattice.ins - (k + 1)) output }
    {
        self.axis_step(&self.lattice.axis(k))
    }

    // The largest differences along all in-channels, added up.
    fn total_step(&self) -> u32
        ensures { let lattice = self.now.lattice.now in
            let output = output_of_node E.Entries.counts lattice self.now.output in
            result ≡ total_step (number lattice.ins) lattice.grid output }
    {
        (0..self.lattice.ins.number())
            .map(|k| self.step_along(k))
            .sum()
    }
}
