// How bounds are told: in grains, and in counts with five decimals, rounded up.
use meaning::{FULL_RANGE, UNCLAIMED, hundred_thousandths};
use stage::Stage;
use std::{fmt, io};

// Grains in counts, with as many blanks in front as a column needs that holds the full range.
#[derive(Clone, Copy)]
pub(crate) struct CountsColumn(pub u32);

impl fmt::Display for CountsColumn {
    fn fmt<W: fmt::Write>(&self, f: &mut fmt::Formatter<W>) -> fmt::Result {
        let parts = hundred_thousandths(self.0);
        let counts = parts / 100_000;
        let decimals = parts % 100_000;
        write!(f, "{counts:>5}.{decimals:05}")
    }
}

// What is said of a bound that is the full range.
#[derive(Clone, Copy)]
pub(crate) struct Promise(pub u32);

impl fmt::Display for Promise {
    fn fmt<W: fmt::Write>(&self, f: &mut fmt::Formatter<W>) -> fmt::Result {
        f.write_str(if self.0 >= FULL_RANGE {
            ", the full range: no promise"
        } else {
            ""
        })
    }
}

// A bound within a sentence.
#[derive(Clone, Copy)]
pub(crate) struct Bound(pub u32);

impl fmt::Display for Bound {
    fn fmt<W: fmt::Write>(&self, f: &mut fmt::Formatter<W>) -> fmt::Result {
        let grains = self.0;
        let parts = hundred_thousandths(grains);
        let counts = parts / 100_000;
        let decimals = parts % 100_000;
        let promise = Promise(grains);
        write!(f, "{grains} grains, {counts}.{decimals:05} counts{promise}")
    }
}

// How many there are of what one word names.
#[derive(Clone, Copy, Debug)]
pub(crate) struct Many(pub usize, pub &'static str);

impl fmt::Display for Many {
    fn fmt<W: fmt::Write>(&self, f: &mut fmt::Formatter<W>) -> fmt::Result {
        let Many(number, word) = self;
        let ending = if *number == 1 { "" } else { "s" };
        write!(f, "{number} {word}{ending}")
    }
}

// Prints the steepness and the error of a stage, in columns, behind so many blanks.
pub(crate) fn print_figures<S: Stage>(rt: &HostRuntime, margin: &str, stage: &S) -> io::Result<()> {
    let steepness = stage.steepness();
    let counts = CountsColumn(steepness);
    if steepness >= UNCLAIMED {
        println!(rt; "{margin}steepness: none is claimed")?;
    } else {
        println!(rt; "{margin}steepness: {steepness:>10} grains a count {counts} counts a count")?;
    }
    let error = stage.error();
    let counts = CountsColumn(error);
    let promise = Promise(error);
    println!(rt; "{margin}error:     {error:>10} grains         {counts} counts{promise}")
}

// Prints the channels of a stage and its figures.
pub(crate) fn print_stage<S: Stage>(rt: &HostRuntime, stage: &S) -> io::Result<()> {
    let ins = stage.ins().number();
    let outs = Many(stage.outs().number(), "channel");
    println!(rt; "profiles: {ins} to {outs}")?;
    print_figures(rt, "  ", stage)
}
