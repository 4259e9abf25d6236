// The bounds of a chain of profiles and of its links, as they go into a price list.
use crate::command::{LinkQuotes, QuoteCall};
use crate::failure::Failure;
use crate::figures::{CountsColumn, Promise, print_stage};
use crate::profiles::{files_of, opened};
use meaning::link_error;
use stage::{Rated, Stage, lattice_nodes};
use std::io;

// The fewest and the most grid points of a link.
pub(crate) const FEWEST: u8 = 2;

pub(crate) const MOST: u8 = 33;

// Prints the error of a link in columns.
fn print_link<S: Stage>(rt: &HostRuntime, stage: &S, points: u8) -> io::Result<()> {
    let nodes = lattice_nodes(stage.ins(), points);
    let error = link_error(stage.error(), stage.steepness(), points);
    let counts = CountsColumn(error);
    let promise = Promise(error);
    println!(rt; "{points:>5} {nodes:>10} {error:>12} {counts:>14}{promise}")
}

// Prints the errors of links of some grids, and which column is which.
fn print_links<S: Stage>(rt: &HostRuntime, stage: &S, first: u8, last: u8) -> io::Result<()> {
    println!(rt; " grid      nodes error, grains  error, counts")?;
    for points in first..=last {
        print_link(rt, stage, points)?;
    }
    Ok(())
}

pub(crate) fn run<'a>(rt: &HostRuntime, call: &QuoteCall<'a>) -> Result<(), Failure<'a>> {
    let profiles = call.profiles.as_slice();
    let files = files_of(rt, profiles)?;
    let stage = Rated::new(opened(rt, profiles, files.as_slice())?);
    print_stage(rt, &stage)?;
    match call.links {
        LinkQuotes::Without => {}
        LinkQuotes::One(grid) => print_links(rt, &stage, grid.points(), grid.points())?,
        LinkQuotes::All => print_links(rt, &stage, FEWEST, MOST)?,
    }
    Ok(())
}
