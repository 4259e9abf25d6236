// How bounds, refusals and links are told.
use link::{Refusal, State};
use meaning::hundred_thousandths;
use std::fmt;

// A bound in grains, and in counts with five decimals.
#[derive(Clone, Copy)]
pub(crate) struct Bound(pub u32);

impl fmt::Display for Bound {
    fn fmt<W: fmt::Write>(&self, f: &mut fmt::Formatter<W>) -> fmt::Result {
        let grains = self.0;
        let parts = hundred_thousandths(grains);
        let counts = parts / 100_000;
        let decimals = parts % 100_000;
        write!(f, "{grains} grains, {counts}.{decimals:05} counts")
    }
}

// Why a call was refused, by number and sentence.
#[derive(Clone, Copy)]
pub(crate) struct Refused(pub Refusal);

impl fmt::Display for Refused {
    fn fmt<W: fmt::Write>(&self, f: &mut fmt::Formatter<W>) -> fmt::Result {
        let refusal = self.0;
        let number = refusal.number();
        write!(f, "refused, {number}: {refusal}")
    }
}

// Where a link stands.
#[derive(Clone, Copy)]
pub(crate) struct Standing(pub State);

impl fmt::Display for Standing {
    fn fmt<W: fmt::Write>(&self, f: &mut fmt::Formatter<W>) -> fmt::Result {
        match self.0 {
            State::Empty => f.write_str("none"),
            State::Filling { grid, next } => {
                let points = grid.points();
                write!(f, "filling, {points} grid points, next node {next}")
            }
            State::Full { grid } => {
                let points = grid.points();
                write!(f, "full, {points} grid points")
            }
        }
    }
}

// Counts with a space before each.
pub(crate) fn print_counts(rt: &HostRuntime, counts: &[u16]) -> anyhow::Result<()> {
    for count in counts {
        print!(rt; " {count}")?;
    }
    Ok(())
}

// A bound on a line of its own.
pub(crate) fn print_bound(rt: &HostRuntime, grains: u32) -> anyhow::Result<()> {
    println!(rt; "  bound: {}", Bound(grains))?;
    Ok(())
}
