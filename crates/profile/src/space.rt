// The colour spaces that a profile can name.
ghost use Rattle.std.specs.Prelude.{◌≡◌};
ghost use Rattle.profile.specs.Spaces.{space_of, channels_of};

use meaning::Channels;

#[derive(Clone, Copy, PartialEq, Eq, Debug)]
pub enum Space {
    Gray,
    Rgb,
    Cmyk,
    Lab,
    Xyz,
}

impl Space {
    // The space with a signature, four letters as one number, or nothing where no space has it.
    pub(crate) fn of(signature: u32) -> Option<Space>
        ensures { result ≡ space_of signature }
    {
        match signature {
            0x4752_4159 => Some(Space::Gray),
            0x5247_4220 => Some(Space::Rgb),
            0x434d_594b => Some(Space::Cmyk),
            0x4c61_6220 => Some(Space::Lab),
            0x5859_5a20 => Some(Space::Xyz),
            _ => None,
        }
    }

    pub fn channels(self) -> Channels
        ensures { result ≡ channels_of self }
    {
        match self {
            Space::Gray => Channels::One,
            Space::Rgb | Space::Lab | Space::Xyz => Channels::Three,
            Space::Cmyk => Channels::Four,
        }
    }
}
