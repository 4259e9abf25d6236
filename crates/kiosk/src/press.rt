// Rows as a kiosk prints them: a converter over the profiles, whose link, if there is one, is filled before each row. Rows go
// directly while it is filling, and through it once it is full.
use crate::command::LinkCall;
use crate::failure::Failure;
use crate::figures::Many;
use crate::tally::{Tally, Way};
use link::{Converter, Filled, Pixel, Refusal, State};
use profile::ElementChain;
use stage::{Grid, Rated, Stage, lattice_nodes};
use std::alloc::Global;
use std::io;

#[derive(Drop)]
pub(crate) struct Press<'f> {
    converter: Converter<ElementChain<'f>>,
    table: Vec<u16>,
    budget: Option<usize>,
    // How often nodes were filled, and how many are still missing.
    fills: usize,
    missing: usize,
}

// How many numbers the table of a link has.
fn numbers_of(converter: &Converter<ElementChain<'_>>, points: u32) -> Result<usize, Refusal> {
    converter.table_length(points).ok_or(Refusal::GridPoints)
}

impl<'f> Press<'f> {
    // Without a link.
    pub(crate) fn new(heap: Global, chain: ElementChain<'f>) -> Press<'f> {
        Press {
            converter: Converter::new(chain),
            table: Vec::new(heap),
            budget: None,
            fills: 0,
            missing: 0,
        }
    }

    // Begins a link.
    pub(crate) fn begin<'a>(&mut self, heap: Global, link: LinkCall) -> Result<(), Failure<'a>> {
        let points = u32::from(link.grid.points());
        self.table = vec![in heap; 0; numbers_of(&self.converter, points)?]?;
        self.converter.begin(self.table.as_slice(), points)?;
        self.budget = link.budget;
        self.missing = lattice_nodes(self.stage().ins(), link.grid.points());
        Ok(())
    }

    pub(crate) fn stage(&self) -> &Rated<ElementChain<'f>> {
        self.converter.stage()
    }

    pub(crate) fn converter(&self) -> &Converter<ElementChain<'f>> {
        &self.converter
    }

    // The numbers of the link's nodes.
    pub(crate) fn table(&self) -> &[u16] {
        self.table.as_slice()
    }

    // The nodes of the link, if there is one.
    pub(crate) fn nodes(&self) -> Option<usize> {
        let grid: Grid = self.converter.state().grid()?;
        Some(lattice_nodes(self.stage().ins(), grid.points()))
    }

    // Fills some nodes more where the link is filling.
    pub(crate) fn fill(&mut self) -> Result<(), Refusal> {
        if let State::Filling { .. } = self.converter.state() {
            let budget = self.budget.unwrap_or(usize::MAX);
            let Filled { missing, .. } = self.converter.fill(self.table.as_mut_slice(), budget)?;
            self.missing = missing;
            self.fills = self.fills.saturating_add(1);
        }
        Ok(())
    }

    // A row, and the way that it went, with the bound that the call returned.
    pub(crate) fn row<P: Pixel, Q: Pixel>(
        &self,
        entering: &[P],
        leaving: &mut [Q],
    ) -> Result<(Way, u32), Refusal> {
        match self.converter.state() {
            State::Full { .. } => {
                let bound = self
                    .converter
                    .link_row(self.table.as_slice(), entering, leaving)?;
                Ok((Way::Link, bound))
            }
            State::Empty | State::Filling { .. } => {
                Ok((Way::Direct, self.converter.row(entering, leaving)?))
            }
        }
    }

    // How many in a hundred of the link's nodes are filled, if there is a link.
    pub(crate) fn filled(&self) -> Option<usize> {
        let nodes = self.nodes()?;
        let filled = nodes.saturating_sub(self.missing);
        Some(filled.saturating_mul(100) / nodes.max(1))
    }

    // Prints how long the filling went on, if there is a link.
    pub(crate) fn print_filling(&self, rt: &HostRuntime, tally: &Tally) -> io::Result<()> {
        let Some(nodes) = self.nodes() else {
            return Ok(());
        };
        let missing = Many(self.missing, "node");
        print!(rt; "the link of {nodes} nodes was ")?;
        match tally.first_through_link() {
            Some(row) => {
                print!(rt; "full after ")?;
                self.print_fills(rt)?;
                println!(rt; ", before row {row}")
            }
            None => {
                print!(rt; "still filling after ")?;
                self.print_fills(rt)?;
                println!(rt; ", with {missing} missing")
            }
        }
    }

    // How often nodes were filled, and how many each time.
    fn print_fills(&self, rt: &HostRuntime) -> io::Result<()> {
        let fills = Many(self.fills, "fill");
        match self.budget {
            Some(budget) => {
                let nodes = Many(budget, "node");
                print!(rt; "{fills} of {nodes}")
            }
            None => print!(rt; "{fills} of all nodes"),
        }
    }
}
