// Opening a profile: header, directory and element, one after the other.
ghost use Rattle.std.specs.Prelude.{◌≡◌, IfOk, IfErr};
ghost use Rattle.profile.specs.Checks.{Passing, FirstFailing};
ghost use Rattle.profile.specs.Headers.{space_in, space_out};
ghost use Rattle.profile.specs.Opening.{between, checks, opened, opening_view, viewed};
ghost use Rattle.profile.specs.Parts.{TablesOf, TakenFrom};
ghost use Rattle.profile.specs.Tags.{signature};
ghost use Rattle.profile.specs.Views.{element_view, element_viewed};

use crate::directory::Found;
use crate::element::Element;
use crate::fault::Fault;
use crate::header::Header;
use crate::reading::Reader;
use crate::space::Space;
use crate::tag::Tag;

// An opened profile: its element, which takes colours of one space and gives colours of another.
#[derive(Clone, Copy)]
pub struct Opened<'a> {
    pub takes: Space,
    pub gives: Space,
    pub element: Element<'a>,
}

impl Header {
    // Reads the element between the header's spaces.
    fn read_element<'a>(&self, tag: Tag, reader: &Reader<'a>) -> Result<Element<'a>, Fault>
        ensures { element_viewed result
            ≡ between reader.now.bytes.now reader.now.place self.now tag }
    {
        let takes = self.space_in(tag).channels();
        let gives = self.space_out(tag).channels();
        reader.read(takes, gives)
    }

    // The opened profile, with the header's spaces.
    fn opened<'a>(&self, tag: Tag, element: Element<'a>) -> Opened<'a>
        ensures { opening_view result ≡ record {
          takes = space_in self.now tag;
          gives = space_out self.now tag;
          element = element_view element.entry;
        } }
    {
        Opened {
            takes: self.space_in(tag),
            gives: self.space_out(tag),
            element,
        }
    }
}

impl<'a> Opened<'a> {
    // The opened profile, or the first fault.
    fn read(bytes: &'a [u8], tag: Tag) -> Result<Opened<'a>, Fault>
        ensures { viewed result ≡ opened bytes.now tag }
    {
        let header = Header::read(bytes)?;
        let found = Found::read(bytes, tag.signature())?;
        let element = header.read_element(tag, &found.reader(bytes))?;
        Ok(header.opened(tag, element))
    }
}

// Opens an element of a profile, or says which fault the profile has: the fault of the first check that fails. Nothing is
// copied, no table is looked at, and no bound is worked out: `Rated` does that, and keeps it.
pub fn open(bytes: &[u8], tag: Tag) -> Result<Opened<'_>, Fault>
    ensures value { viewed result ≡ opened bytes.now tag }
    ensures passing { IfOk result (λ _. Passing (checks bytes.now tag)) }
    // No record before the one that is taken has the tag's signature. The element lies where that one says, and its tables
    // lie one behind the other.
    ensures taken { IfOk result (λ opened.
        TakenFrom bytes.now (signature tag) (element_view opened.element)) }
    // Each table is a part of the file, with all its entries.
    ensures parts { IfOk result (λ opened. TablesOf bytes.now (element_view opened.element)) }
    // Of the checks that fail, the first is told.
    ensures first { IfErr result (λ fault. FirstFailing (checks bytes.now tag) fault) }
{
    Opened::read(bytes, tag)
}
