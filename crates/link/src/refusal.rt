// Why a call is refused, each reason with its number and its sentence.
ghost use Rattle.std.specs.Prelude.{◌≡◌, Some};
ghost use Rattle.link.specs.Refusals.{number_of, sentence_of};

use meaning::Faithful;
use std::fmt;

#[derive(Clone, Copy, PartialEq, Eq, Debug)]
pub enum Refusal {
    // The entering row and the leaving row are not equally long.
    RowLengths,
    // The stage has other channels than the pixels.
    PixelChannels,
    // A link has 2 to 33 grid points.
    GridPoints,
    // The node table is shorter than the link.
    TableLength,
    // There is no link: none was begun, or the last one was dropped.
    NoLink,
    // A full link has nothing to fill.
    FullLink,
    // The link has nodes that are not filled yet.
    FillingLink,
    // The output is shorter than the written link.
    OutputLength,
}

impl Refusal {
    // The number by which it is reported.
    pub fn number(self) -> u8
        ensures { result ≡ number_of self }
    {
        match self {
            Refusal::RowLengths => 30,
            Refusal::PixelChannels => 31,
            Refusal::GridPoints => 32,
            Refusal::TableLength => 33,
            Refusal::NoLink => 34,
            Refusal::FullLink => 35,
            Refusal::FillingLink => 36,
            Refusal::OutputLength => 37,
        }
    }

    // The sentence that tells the reason.
    pub fn sentence(self) -> &'static str
        ensures { result.now ≡ sentence_of self }
    {
        match self {
            Refusal::RowLengths => "the two rows are not equally long",
            Refusal::PixelChannels => "the pixels' channels are not the stage's",
            Refusal::GridPoints => "a link has 2 to 33 grid points",
            Refusal::TableLength => "the node table is shorter than the link",
            Refusal::NoLink => "there is no link",
            Refusal::FullLink => "the link is full already",
            Refusal::FillingLink => "the link is still filling",
            Refusal::OutputLength => "the output is shorter than the written link",
        }
    }
}

impl fmt::Display for Refusal {
    ghost output = { λ refusal. Some (sentence_of refusal) };

    fn fmt<W: fmt::Write>(&self, f: &mut fmt::Formatter<W>) -> fmt::Result {
        f.write_str(self.sentence())
    }
}

impl Faithful for Refusal {
    ghost use Rattle.std.proofs.Common.{rules};

    ghost equal = { Prim.search rules };

    ghost copied = { Prim.search rules };
}
