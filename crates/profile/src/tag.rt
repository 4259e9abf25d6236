// The two elements of a profile that can be opened.
ghost use Rattle.std.specs.Prelude.{◌≡◌};
ghost use Rattle.profile.specs.Tags.{signature};

#[derive(Clone, Copy, PartialEq, Eq, Debug)]
pub enum Tag {
    // From the profile's colour space to its other space.
    A2B0,
    // The reverse.
    B2A0,
}

impl Tag {
    // Its four letters as one number.
    pub(crate) fn signature(self) -> u32
        ensures { result ≡ signature self }
    {
        match self {
            Tag::A2B0 => 0x4132_4230,
            Tag::B2A0 => 0x4232_4130,
        }
    }
}
