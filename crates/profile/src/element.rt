// Elements: what a lut8 or a lut16 of a profile holds, as a stage over parts of the profile's bytes.
ghost use Rattle.std.specs.Prelude.{◌≡◌, ◌+◌, ◌<◌, ◌≤◌, take, drop, length};
ghost use Rattle.meaning.specs.Colours.{number};
ghost use Rattle.stage.specs.Lattices.{points};
ghost use Rattle.profile.specs.Kinds.{kind_of, head, width};
ghost use Rattle.profile.specs.Layouts.{input_meaning, input_lawful, element_meaning};
ghost use Rattle.profile.specs.Views.{narrow_bytes, wide_bytes, part_view, placed_view, element_view, element_lawful};

use meaning::Channels;
use stage::{
    Colour, Curves, Entries, Grid, Joined, Lattice, Matrix, NarrowBytes, Stage, Table, WideBytes,
};

// The two types of element that can be opened.
#[derive(Clone, Copy, PartialEq, Eq, Debug)]
pub enum Kind {
    Lut8,
    Lut16,
}

impl Kind {
    // The type with a signature, four letters as one number, or nothing where no type has it.
    pub(crate) fn of(signature: u32) -> Option<Kind>
        ensures { result ≡ kind_of signature }
    {
        match signature {
            0x6d66_7431 => Some(Kind::Lut8),
            0x6d66_7432 => Some(Kind::Lut16),
            _ => None,
        }
    }

    // The bytes of an entry.
    pub(crate) fn width(self) -> usize
        ensures { result ≡ width self }
    {
        match self {
            Kind::Lut8 => 1,
            Kind::Lut16 => 2,
        }
    }

    // Where in an element its tables begin.
    pub(crate) fn head(self) -> usize
        ensures { result ≡ head self }
    {
        match self {
            Kind::Lut8 => 48,
            Kind::Lut16 => 52,
        }
    }
}

// A part of a profile's bytes, and its place in them.
#[derive(Clone, Copy)]
pub struct Part<'a> {
    pub place: usize,
    pub bytes: &'a [u8],
}

// The tables of an element as parts of its profile's bytes.
#[derive(Clone, Copy)]
pub struct Tables<'a> {
    pub input: Part<'a>,
    pub nodes: Part<'a>,
    pub output: Part<'a>,
}

// A table's entries, and the place in the profile's bytes at which they begin.
#[derive(Clone, Copy)]
pub struct Placed<E> {
    pub place: usize,
    pub entries: E,
}

impl<'a> Part<'a> {
    // Its bytes as entries of one byte each.
    pub(crate) fn narrow(self) -> Placed<NarrowBytes<'a>>
        ensures { placed_view narrow_bytes result ≡ part_view self.entry }
    {
        Placed {
            place: self.place,
            entries: Table(self.bytes),
        }
    }

    // Its bytes as entries of two bytes each.
    pub(crate) fn wide(self) -> Placed<WideBytes<'a>>
        ensures { placed_view wide_bytes result ≡ part_view self.entry }
    {
        Placed {
            place: self.place,
            entries: WideBytes(self.bytes),
        }
    }
}

impl<'a> Placed<NarrowBytes<'a>> {
    fn part(&self) -> Part<'a>
        ensures { part_view result ≡ placed_view narrow_bytes self.now }
    {
        Part {
            place: self.place,
            bytes: self.entries.0,
        }
    }
}

impl<'a> Placed<WideBytes<'a>> {
    fn part(&self) -> Part<'a>
        ensures { part_view result ≡ placed_view wide_bytes self.now }
    {
        Part {
            place: self.place,
            bytes: self.entries.0,
        }
    }
}

impl<E: Entries> Entries for Placed<E> {
    ghost counts = { λ s. E.Entries.counts s.entries };

    fn entry(&self, index: usize) -> u16 {
        self.entries.entry(index)
    }
}

// What runs before the lattice: the input curves, after the matrix where there is one.
#[derive(Clone, Copy)]
pub struct Input<E> {
    pub matrix: Option<Matrix>,
    pub curves: Curves<E>,
}

impl<E: Entries> Stage for Input<E> {
    ghost meaning = { λ s. input_meaning s.matrix (⟦<Curves<E> as Stage>⟧.meaning s.curves) };

    ghost lawful = { λ s. input_lawful s.matrix
        (⟦<Curves<E> as Stage>⟧.meaning s.curves)
        (⟦<Curves<E> as Stage>⟧.lawful s.curves) };

    fn ins(&self) -> Channels {
        match self.matrix {
            Some(matrix) => matrix.ins(),
            None => self.curves.ins(),
        }
    }

    fn outs(&self) -> Channels {
        self.curves.outs()
    }

    fn steepness(&self) -> u32 {
        match self.matrix {
            Some(first) => Joined {
                first,
                second: &self.curves,
            }
            .steepness(),
            None => self.curves.steepness(),
        }
    }

    fn error(&self) -> u32 {
        match self.matrix {
            Some(first) => Joined {
                first,
                second: &self.curves,
            }
            .error(),
            None => self.curves.error(),
        }
    }

    fn answer(&self, colour: &Colour) -> Colour {
        match self.matrix {
            Some(first) => Joined {
                first,
                second: &self.curves,
            }
            .answer(colour),
            None => self.curves.answer(colour),
        }
    }
}

// The stages of an element, joined from the left.
pub type Lut<E> = Joined<Joined<Input<E>, Lattice<E>>, Curves<E>>;

// An opened element: its stages over parts of the profile's bytes.
#[derive(Clone, Copy)]
pub enum Element<'a> {
    // A byte for each entry.
    Lut8(Lut<Placed<NarrowBytes<'a>>>),
    // Two bytes for each entry.
    Lut16(Lut<Placed<WideBytes<'a>>>),
}

impl<'a> Element<'a> {
    pub fn kind(&self) -> Kind
        ensures { result ≡ (element_view self.now).kind }
    {
        match self {
            Element::Lut8(_) => Kind::Lut8,
            Element::Lut16(_) => Kind::Lut16,
        }
    }

    // The grid points of its lattice.
    pub fn grid(&self) -> Grid
        ensures { points result ≡ (element_view self.now).nodes.grid }
    {
        match self {
            Element::Lut8(narrow) => narrow.first.second.grid(),
            Element::Lut16(wide) => wide.first.second.grid(),
        }
    }

    // The input tables, the nodes and the output tables: their bytes, and where these lie in those that were opened or read.
    pub fn tables(&self) -> Tables<'a>
        ensures input { part_view result.input ≡ (element_view self.now).input.table }
        ensures nodes { part_view result.nodes ≡ (element_view self.now).nodes.table }
        ensures output { part_view result.output ≡ (element_view self.now).output.table }
    {
        match self {
            Element::Lut8(narrow) => Tables {
                input: narrow.first.first.curves.table().part(),
                nodes: narrow.first.second.table().part(),
                output: narrow.second.table().part(),
            },
            Element::Lut16(wide) => Tables {
                input: wide.first.first.curves.table().part(),
                nodes: wide.first.second.table().part(),
                output: wide.second.table().part(),
            },
        }
    }
}

impl Stage for Element<'_> {
    ghost meaning = { λ s. element_meaning (element_view s) };

    ghost lawful = { element_lawful };

    fn ins(&self) -> Channels {
        match self {
            Element::Lut8(lut) => lut.ins(),
            Element::Lut16(lut) => lut.ins(),
        }
    }

    fn outs(&self) -> Channels {
        match self {
            Element::Lut8(lut) => lut.outs(),
            Element::Lut16(lut) => lut.outs(),
        }
    }

    fn steepness(&self) -> u32 {
        match self {
            Element::Lut8(lut) => lut.steepness(),
            Element::Lut16(lut) => lut.steepness(),
        }
    }

    fn error(&self) -> u32 {
        match self {
            Element::Lut8(lut) => lut.error(),
            Element::Lut16(lut) => lut.error(),
        }
    }

    fn answer(&self, colour: &Colour) -> Colour {
        match self {
            Element::Lut8(lut) => lut.answer(colour),
            Element::Lut16(lut) => lut.answer(colour),
        }
    }
}
