// The header of a profile.
ghost use Rattle.std.specs.Prelude.{◌≡◌, ◌≤◌, IfOk, length};
ghost use Rattle.profile.specs.Checks.{ruled};
ghost use Rattle.profile.specs.Headers.{length_fits, header_checks, header, space_in, space_out};

use crate::bytes::word;
use crate::fault::Fault;
use crate::space::Space;
use crate::tag::Tag;

// The two spaces that a profile is made for.
#[derive(Clone, Copy, PartialEq, Eq, Debug)]
pub struct Header {
    // That of the device.
    pub colour: Space,
    // That which colours are told in between devices.
    pub other: Space,
}

// Whether a file is as long as it says, and neither too short nor too long.
fn length_fits(bytes: &[u8]) -> bool
    ensures { result ≡ length_fits bytes.now }
{
    (132..=16_777_216).contains(&bytes.len()) && word(bytes, 0) as usize == bytes.len()
}

impl Header {
    // The two spaces that the header of a file names, or the fault of the first of its checks that fails. Neither the directory
    // nor an element is looked at.
    pub fn read(bytes: &[u8]) -> Result<Header, Fault>
        ensures value { result ≡ ruled (header_checks bytes.now) (header bytes.now) }
        // Then the file goes on to where its records begin.
        ensures long { IfOk result (λ _. 132 ≤ length bytes.now) }
    {
        if !length_fits(bytes) {
            return Err(Fault::Length);
        }
        if word(bytes, 36) != 0x6163_7370 {
            return Err(Fault::Magic);
        }
        let colour = Space::of(word(bytes, 16)).ok_or(Fault::ColourSpace)?;
        let other = Space::of(word(bytes, 20)).ok_or(Fault::OtherSpace)?;
        Ok(Header { colour, other })
    }

    // The space that an element takes.
    pub(crate) fn space_in(&self, tag: Tag) -> Space
        ensures { result ≡ space_in self.now tag }
    {
        match tag {
            Tag::A2B0 => self.colour,
            Tag::B2A0 => self.other,
        }
    }

    // The space that an element gives.
    pub(crate) fn space_out(&self, tag: Tag) -> Space
        ensures { result ≡ space_out self.now tag }
    {
        match tag {
            Tag::A2B0 => self.other,
            Tag::B2A0 => self.colour,
        }
    }
}
