// What is said of profiles: layers, spaces and the types of elements by name, and a fault in a sentence.
ghost use Rattle.std.specs.Prelude.{◌≡◌, Some};
ghost use Rattle.profile.specs.Sentences.{kind_name, name_of, sentence_of, space_name};

use crate::element::Kind;
use crate::fault::{Fault, Layer};
use crate::space::Space;
use std::fmt;

impl Layer {
    // Its name.
    pub fn name(self) -> &'static str
        ensures { result.now ≡ name_of self }
    {
        match self {
            Layer::Header => "header",
            Layer::Directory => "directory",
            Layer::Element => "element",
        }
    }
}

impl fmt::Display for Layer {
    ghost output = { λ layer. Some (name_of layer) };

    fn fmt<W: fmt::Write>(&self, f: &mut fmt::Formatter<W>) -> fmt::Result {
        let layer = self.name();
        f.write_str(layer)
    }
}

impl Fault {
    // A sentence that tells it.
    pub fn sentence(self) -> &'static str
        ensures { result.now ≡ sentence_of self }
    {
        match self {
            Fault::Length => {
                "the file has fewer than 132 or more than 16777216 bytes, or not as many as it says"
            }
            Fault::Magic => "the file is no profile: acsp is missing",
            Fault::ColourSpace => "the colour space is unknown",
            Fault::OtherSpace => "the other space is unknown",
            Fault::Records => "there are more than 64 records, or they go past the end of the file",
            Fault::Absent => "the wanted element is not there",
            Fault::Outside { .. } => {
                "the element begins before the records end, or ends past the end of the file"
            }
            Fault::Short { .. } => "the element has fewer than 52 bytes",
            Fault::UnknownType { .. } => "the element is neither a lut8 nor a lut16",
            Fault::InChannels { .. } => "the element does not take the channels of its space",
            Fault::OutChannels { .. } => "the element does not give the channels of its space",
            Fault::GridPoints { .. } => "the lattice has fewer than 2 grid points",
            Fault::InputLength { .. } => "the input tables do not have 2 to 4096 entries",
            Fault::OutputLength { .. } => "the output tables do not have 2 to 4096 entries",
            Fault::Tables { .. } => "the tables go past the end of the element",
        }
    }
}

impl fmt::Display for Fault {
    ghost output = { λ fault. Some (sentence_of fault) };

    fn fmt<W: fmt::Write>(&self, f: &mut fmt::Formatter<W>) -> fmt::Result {
        f.write_str(self.sentence())
    }
}

impl Space {
    // Its name.
    pub fn name(self) -> &'static str
        ensures { result.now ≡ space_name self }
    {
        match self {
            Space::Gray => "GRAY",
            Space::Rgb => "RGB",
            Space::Cmyk => "CMYK",
            Space::Lab => "Lab",
            Space::Xyz => "XYZ",
        }
    }
}

impl fmt::Display for Space {
    ghost output = { λ space. Some (space_name space) };

    fn fmt<W: fmt::Write>(&self, f: &mut fmt::Formatter<W>) -> fmt::Result {
        f.write_str(self.name())
    }
}

impl Kind {
    // Its name.
    pub fn name(self) -> &'static str
        ensures { result.now ≡ kind_name self }
    {
        match self {
            Kind::Lut8 => "lut8",
            Kind::Lut16 => "lut16",
        }
    }
}

impl fmt::Display for Kind {
    ghost output = { λ kind. Some (kind_name kind) };

    fn fmt<W: fmt::Write>(&self, f: &mut fmt::Formatter<W>) -> fmt::Result {
        f.write_str(self.name())
    }
}
