// The colour engine for the board's main program, which is written in C: the one function that it
// calls.
#![tactic(auto)]

ghost use Rattle.std.specs.Prelude.{◌≡◌};
ghost use Rattle.profile.specs.Opening.{opened};
ghost use Rattle.board.specs.Answers.{number_told, colour_left};

use profile::{Tag, open};
use stage::{Colour, Stage};

// Runs a colour through a profile's element A2B0. It returns 0 and leaves the answer in `colour`,
// or returns the number of the profile's fault and leaves `colour` as it stood.
#[unsafe(no_mangle)]
pub extern "C" fn newtwolfram_convert(profile: &[u8], colour: &mut Colour) -> u32
    ensures number { result ≡ number_told (opened profile.now Tag.A2B0) }
    ensures colour { colour.new ≡ colour_left (opened profile.now Tag.A2B0) colour.old }
{
    match open(profile, Tag::A2B0) {
        Ok(opened) => {
            *colour = opened.element.answer(colour);
            0
        }
        Err(fault) => fault.number(),
    }
}

// How many bytes the number has that C reads. What else is promised of it would hold at any width.
fn bytes_of_number(profile: &[u8], colour: &mut Colour) -> usize
    ensures { result ≡ 4 }
{
    newtwolfram_convert(profile, colour).to_ne_bytes().len()
}
