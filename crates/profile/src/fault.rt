// What is wrong with a profile, and where.
ghost use Rattle.std.specs.Prelude.{◌≡◌};
ghost use Rattle.profile.specs.Faults.{layer_number, told};

use std::fmt;

// The part of a profile that a fault lies in.
#[derive(Clone, Copy, PartialEq, Eq, Debug)]
pub enum Layer {
    Header,
    Directory,
    Element,
}

impl Layer {
    // The layers are numbered from the front of the file.
    pub fn number(self) -> u32
        ensures { result ≡ layer_number self }
    {
        match self {
            Layer::Header => 1,
            Layer::Directory => 2,
            Layer::Element => 3,
        }
    }
}

// A fault of a profile, or of an element that is read alone. `record` is the place of the directory's record and `element`
// that of the element: in the file, or 0 where the element is read alone.
#[derive(Clone, Copy, PartialEq, Eq, Debug)]
pub enum Fault {
    // The length: under 132 bytes, over 16,777,216, or not the one that the first four bytes tell.
    Length,
    // No profile: the signature acsp is missing.
    Magic,
    // The colour space is unknown.
    ColourSpace,
    // The other space is unknown.
    OtherSpace,
    // More than 64 records, or records past the end of the file.
    Records,
    // No record has the wanted signature.
    Absent,
    // The element begins before the records end, or ends past the end of the file.
    Outside { record: u32 },
    // The element has fewer than 52 bytes.
    Short { element: u32 },
    // It is neither a lut8 nor a lut16.
    UnknownType { element: u32 },
    // It does not take the channels of the space before it.
    InChannels { element: u32 },
    // It does not give the channels of the space after it.
    OutChannels { element: u32 },
    // It has fewer than 2 grid points.
    GridPoints { element: u32 },
    // Its input tables do not have 2 to 4,096 entries.
    InputLength { element: u32 },
    // Its output tables do not.
    OutputLength { element: u32 },
    // Its tables go past its end.
    Tables { element: u32 },
}

impl Fault {
    pub fn number(self) -> u32
        ensures { result ≡ (told self).number }
    {
        match self {
            Fault::Length => 1,
            Fault::Magic => 2,
            Fault::ColourSpace | Fault::OtherSpace => 3,
            Fault::Records => 4,
            Fault::Absent => 5,
            Fault::Outside { .. } => 6,
            Fault::Short { .. } => 7,
            Fault::UnknownType { .. } => 8,
            Fault::InChannels { .. } | Fault::OutChannels { .. } => 9,
            Fault::GridPoints { .. } => 10,
            Fault::InputLength { .. } | Fault::OutputLength { .. } => 11,
            Fault::Tables { .. } => 12,
        }
    }

    pub fn layer(self) -> Layer
        ensures { result ≡ (told self).layer }
    {
        match self {
            Fault::Length | Fault::Magic | Fault::ColourSpace | Fault::OtherSpace => Layer::Header,
            Fault::Records | Fault::Absent | Fault::Outside { .. } => Layer::Directory,
            Fault::Short { .. }
            | Fault::UnknownType { .. }
            | Fault::InChannels { .. }
            | Fault::OutChannels { .. }
            | Fault::GridPoints { .. }
            | Fault::InputLength { .. }
            | Fault::OutputLength { .. }
            | Fault::Tables { .. } => Layer::Element,
        }
    }

    // The byte that it is about, counted from 0: of the file, or of the element that is read alone.
    pub fn place(self) -> u64
        ensures { result ≡ (told self).place }
    {
        match self {
            Fault::Length => 0,
            Fault::Magic => 36,
            Fault::ColourSpace => 16,
            Fault::OtherSpace => 20,
            Fault::Records | Fault::Absent => 128,
            Fault::Outside { record } => u64::from(record),
            Fault::Short { element } | Fault::UnknownType { element } | Fault::Tables { element } =>
                u64::from(element),
            Fault::InChannels { element } => u64::from(element) + 8,
            Fault::OutChannels { element } => u64::from(element) + 9,
            Fault::GridPoints { element } => u64::from(element) + 10,
            Fault::InputLength { element } => u64::from(element) + 48,
            Fault::OutputLength { element } => u64::from(element) + 50,
        }
    }
}
