// A link as the table that is lent holds it, and as a row goes through it.
ghost use Rattle.std.specs.Prelude.{◌≡◌};
ghost use Rattle.meaning.proofs.LatticeLaws.{lattices_lawful};
ghost use Rattle.meaning.specs.Lattices.{lattice};
ghost use Rattle.stage.specs.Lattices.{points};

use crate::pixel::Pixel;
use meaning::Channels;
use stage::{Colour, Entries, Grid, Lattice, NodeTable, Stage, Table};
use std::marker::PhantomData;

// Its grid, and the numbers of its nodes.
#[derive(Clone, Copy)]
pub(crate) struct LentLink<'t> {
    pub grid: Grid,
    pub nodes: &'t [u16],
}

// Its nodes, for rows from pixels P to pixels Q.
#[derive(Drop)]
struct RowNodes<'t, P, Q> {
    table: NodeTable<'t>,
    kinds: PhantomData<(P, Q)>,
}

impl<P, Q> Entries for RowNodes<'_, P, Q> {
    ghost counts = { λ s. ⟦<NodeTable<'static> as Entries>⟧.counts s.table };

    fn entry(&self, index: usize) -> u16 {
        self.table.entry(index)
    }
}

// The lattice of a link, with the channels of the pixels that go through it. They are known where a row's loop is compiled, and each
// pair of kinds has a loop of its own, with the lattice's answer built in.
#[derive(Drop)]
pub(crate) struct RowLattice<'t, P, Q> {
    link: LentLink<'t>,
    kinds: PhantomData<(P, Q)>,
}

impl<'t> LentLink<'t> {
    // Its lattice, for a row from pixels P to pixels Q.
    pub(crate) fn for_row<P, Q>(self) -> RowLattice<'t, P, Q>
        ensures { result.link ≡ self.entry }
    {
        RowLattice {
            link: self,
            kinds: PhantomData,
        }
    }
}

impl<'t, P: Pixel, Q: Pixel> RowLattice<'t, P, Q> {
    // The lattice over the nodes.
    fn lattice(&self) -> Lattice<RowNodes<'t, P, Q>>
        ensures { let grid = points self.now.link.grid in
            ⟦<Lattice<RowNodes<'static, P, Q>> as Stage>⟧.meaning result
            ≡ lattice P.Pixel.kind.channels Q.Pixel.kind.channels grid self.now.link.nodes.now }
    {
        let nodes = RowNodes {
            table: Table(self.link.nodes),
            kinds: PhantomData,
        };
        Lattice::over(P::channels(), Q::channels(), self.link.grid, nodes)
    }
}

impl<P: Pixel, Q: Pixel> Stage for RowLattice<'_, P, Q> {
    ghost meaning = { λ s.
        lattice P.Pixel.kind.channels Q.Pixel.kind.channels (points s.link.grid) s.link.nodes.now };

    ghost lawful = { λ s.
        lattices_lawful P.Pixel.kind.channels Q.Pixel.kind.channels (points s.link.grid)
        s.link.nodes.now };

    fn ins(&self) -> Channels {
        P::channels()
    }

    fn outs(&self) -> Channels {
        Q::channels()
    }

    fn steepness(&self) -> u32 {
        self.lattice().steepness()
    }

    fn error(&self) -> u32 {
        self.lattice().error()
    }

    fn answer(&self, colour: &Colour) -> Colour {
        self.lattice().answer(colour)
    }
}
