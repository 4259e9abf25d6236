// The words of a request, which single spaces part, and what they stand for.
use meaning::Channels;
use profile::Tag;
use stage::Colour;
use std::alloc::{AllocError, AllocFailed, Global};
use std::str::{FromStr, Split};

// Why a line is not read as a request.
#[derive(Drop)]
pub(crate) enum Unread {
    // It is no request.
    Bad,
    Memory(AllocError),
}

impl From<AllocError> for Unread {
    fn from(error: AllocError) -> Unread {
        Unread::Memory(error)
    }
}

impl<T: Drop> From<AllocFailed<T>> for Unread {
    fn from(_: AllocFailed<T>) -> Unread {
        Unread::Memory(AllocError)
    }
}

// The most numbers of a node table, pixels of a leaving row and bytes of an output that are asked for.
const LARGEST: usize = 16_777_216;

// The words that are not read yet.
#[derive(Drop)]
pub(crate) struct Words<'a> {
    rest: Split<'a, char>,
}

impl<'a> Words<'a> {
    pub(crate) fn of(line: &'a str) -> Words<'a> {
        Words {
            rest: line.split(' '),
        }
    }

    // The next word, if there is one.
    pub(crate) fn next(&mut self) -> Option<&'a str> {
        self.rest.next()
    }

    pub(crate) fn word(&mut self) -> Result<&'a str, Unread> {
        self.rest.next().ok_or(Unread::Bad)
    }

    // Nothing stands behind a request.
    pub(crate) fn end(&mut self) -> Result<(), Unread> {
        match self.rest.next() {
            None => Ok(()),
            Some(_) => Err(Unread::Bad),
        }
    }

    // A number in decimal digits. A plus in front, which `parse` would let pass, is none.
    pub(crate) fn number<T: FromStr>(&mut self) -> Result<T, Unread>
    where
        T::Err: Drop,
    {
        let word = self.word()?;
        if word.starts_with('+') {
            return Err(Unread::Bad);
        }
        word.parse::<T>().map_err(|_| Unread::Bad)
    }

    // A number of things that memory has to hold.
    pub(crate) fn size(&mut self) -> Result<usize, Unread> {
        let size = self.number::<usize>()?;
        if size > LARGEST {
            return Err(Unread::Bad);
        }
        Ok(size)
    }

    pub(crate) fn channels(&mut self) -> Result<Channels, Unread> {
        match self.number::<u8>()? {
            1 => Ok(Channels::One),
            3 => Ok(Channels::Three),
            4 => Ok(Channels::Four),
            _ => Err(Unread::Bad),
        }
    }

    pub(crate) fn tag(&mut self) -> Result<Tag, Unread> {
        match self.word()? {
            "A2B0" => Ok(Tag::A2B0),
            "B2A0" => Ok(Tag::B2A0),
            _ => Err(Unread::Bad),
        }
    }

    // Bytes in hexadecimal, or a dash for none.
    pub(crate) fn bytes(&mut self, heap: Global) -> Result<Vec<u8>, Unread> {
        match self.word()? {
            "-" => Ok(Vec::new(heap)),
            "" => Err(Unread::Bad),
            word => Ok(hex::decode(heap, word)?),
        }
    }

    // So many counts.
    pub(crate) fn counts(&mut self, heap: Global, count: usize) -> Result<Vec<u16>, Unread> {
        let mut counts = Vec::new(heap);
        for _ in 0..count {
            counts.push(self.number::<u16>()?)?;
        }
        Ok(counts)
    }

    fn colour(&mut self) -> Result<Colour, Unread> {
        Ok([
            self.number()?,
            self.number()?,
            self.number()?,
            self.number()?,
        ])
    }

    // Colours, behind how many there are.
    pub(crate) fn colours(&mut self, heap: Global) -> Result<Vec<Colour>, Unread> {
        let count = self.number::<usize>()?;
        let mut colours = Vec::new(heap);
        for _ in 0..count {
            colours.push(self.colour()?)?;
        }
        Ok(colours)
    }
}

// Memory that is wanting for the bytes is no fault of theirs.
impl From<hex::FromHexError> for Unread {
    fn from(error: hex::FromHexError) -> Unread {
        match error {
            hex::FromHexError::OutOfMemory => Unread::Memory(AllocError),
            _ => Unread::Bad,
        }
    }
}
