// Colours through a chain of profiles.
use crate::command::{ColoursCall, Counts};
use crate::failure::Failure;
use crate::figures::{Bound, Many, print_stage};
use crate::profiles::{files_of, opened};
use stage::{Rated, Stage};
use std::io;

// Counts with a blank before each.
fn print_counts(rt: &HostRuntime, counts: &[u16]) -> io::Result<()> {
    for count in counts {
        print!(rt; " {count}")?;
    }
    Ok(())
}

// Prints a colour, and the stage's answer to it.
fn print_answer<S: Stage>(rt: &HostRuntime, stage: &S, counts: &Counts<'_>) -> io::Result<()> {
    print!(rt; "colour")?;
    print_counts(rt, &counts.colour[..counts.channels.number()])?;
    print!(rt; " ->")?;
    print_counts(rt, &stage.answer(&counts.colour)[..stage.outs().number()])?;
    println!(rt; "")
}

// The first colour of other channels than the stage takes.
fn test_channels<'a, S: Stage>(stage: &S, colours: &[Counts<'a>]) -> Result<(), Failure<'a>> {
    let takes = stage.ins().number();
    for counts in colours {
        let has = counts.channels.number();
        if has != takes {
            return Err(Failure::ColourChannels {
                colour: counts.text,
                has: Many(has, "channel"),
                takes,
            });
        }
    }
    Ok(())
}

pub(crate) fn run<'a>(rt: &HostRuntime, call: &ColoursCall<'a>) -> Result<(), Failure<'a>> {
    let profiles = call.profiles.as_slice();
    let files = files_of(rt, profiles)?;
    let stage = Rated::new(opened(rt, profiles, files.as_slice())?);
    test_channels(&stage, call.colours.as_slice())?;
    print_stage(rt, &stage)?;
    for counts in call.colours.iter() {
        print_answer(rt, &stage, counts)?;
    }
    let bound = Bound(stage.error());
    println!(rt; "each within {bound}")?;
    Ok(())
}
