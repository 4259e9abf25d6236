// Requests, as a line's words hold them, and the answer to each.
use crate::converter_run::ConverterRun;
use crate::ops::Op;
use crate::profiles::{Profile, Profiles, chain_answer, chain_of, chain_refused, profile_answer};
use crate::stages::{curve_answer, lattice_answer, matrix_answer};
use crate::words::{Unread, Words};
use meaning::Channels;
use stage::{Colour, Grid, TableLength, lattice_entries};
use std::alloc::{AllocError, Global};
use std::array;

// The tables of curves, one after the other.
#[derive(Drop)]
pub(crate) struct Tables {
    pub channels: Channels,
    pub length: TableLength,
    pub entries: Vec<u16>,
}

// The nodes of a lattice.
#[derive(Drop)]
pub(crate) struct Nodes {
    pub ins: Channels,
    pub outs: Channels,
    pub grid: Grid,
    pub entries: Vec<u16>,
}

// A converter over a chain, its node table, and the calls that are made of it.
#[derive(Drop)]
pub(crate) struct Calls {
    pub profiles: Profiles,
    pub numbers: usize,
    pub seed: u64,
    pub ops: Vec<Op>,
}

#[derive(Drop)]
pub(crate) enum Request {
    Run(Profile, Vec<Colour>),
    Chain(Profiles, Vec<Colour>),
    Curve(Tables, Vec<Colour>),
    Matrix([i32; 9], Vec<Colour>),
    Lattice(Nodes, Vec<Colour>),
    Converter(Calls),
}

impl Tables {
    fn read(heap: Global, words: &mut Words<'_>) -> Result<Tables, Unread> {
        let channels = words.channels()?;
        let length = TableLength::new(words.number()?).ok_or(Unread::Bad)?;
        let entries = words.counts(heap, channels.number() * usize::from(length.entries()))?;
        Ok(Tables {
            channels,
            length,
            entries,
        })
    }
}

impl Nodes {
    fn read(heap: Global, words: &mut Words<'_>) -> Result<Nodes, Unread> {
        let ins = words.channels()?;
        let outs = words.channels()?;
        let grid = Grid::new(words.number()?).ok_or(Unread::Bad)?;
        let entries = words.counts(heap, lattice_entries(ins, outs, grid.points()))?;
        Ok(Nodes {
            ins,
            outs,
            grid,
            entries,
        })
    }
}

impl Calls {
    // The calls go on to the end of the line.
    fn read(heap: Global, words: &mut Words<'_>) -> Result<Calls, Unread> {
        let profiles = Profiles::read(heap, words)?;
        let numbers = words.size()?;
        let seed = words.number()?;
        let ops = Op::read_all(heap, words)?;
        Ok(Calls {
            profiles,
            numbers,
            seed,
            ops,
        })
    }

    // What the calls answer, or why the chain is not opened.
    fn answer(&self, heap: Global) -> Result<String, AllocError> {
        match chain_of(heap, &self.profiles)? {
            Ok(chain) => ConverterRun::new(heap, chain, self)?.answers(self.ops.as_slice()),
            Err(error) => chain_refused(heap, error),
        }
    }
}

impl Request {
    // The request that the words of a line hold, all of them.
    pub(crate) fn read(heap: Global, mut words: Words<'_>) -> Result<Request, Unread> {
        let request = Request::begin(heap, &mut words)?;
        words.end()?;
        Ok(request)
    }

    fn begin(heap: Global, words: &mut Words<'_>) -> Result<Request, Unread> {
        match words.word()? {
            "run" => {
                let profile = Profile::read(heap, words)?;
                Ok(Request::Run(profile, words.colours(heap)?))
            }
            "chain" => {
                let profiles = Profiles::read(heap, words)?;
                Ok(Request::Chain(profiles, words.colours(heap)?))
            }
            "curve" => {
                let tables = Tables::read(heap, words)?;
                Ok(Request::Curve(tables, words.colours(heap)?))
            }
            "matrix" => {
                let coefficients = array::try_from_fn(|_| words.number())?;
                Ok(Request::Matrix(coefficients, words.colours(heap)?))
            }
            "lattice" => {
                let nodes = Nodes::read(heap, words)?;
                Ok(Request::Lattice(nodes, words.colours(heap)?))
            }
            "conv" => Ok(Request::Converter(Calls::read(heap, words)?)),
            _ => Err(Unread::Bad),
        }
    }

    pub(crate) fn answer(&self, heap: Global) -> Result<String, AllocError> {
        match self {
            Request::Run(profile, colours) => profile_answer(heap, profile, colours.as_slice()),
            Request::Chain(profiles, colours) => {
                chain_answer(heap, profiles, colours.as_slice())
            }
            Request::Curve(tables, colours) => curve_answer(heap, tables, colours.as_slice()),
            Request::Matrix(coefficients, colours) => {
                matrix_answer(heap, *coefficients, colours.as_slice())
            }
            Request::Lattice(nodes, colours) => lattice_answer(heap, nodes, colours.as_slice()),
            Request::Converter(calls) => calls.answer(heap),
        }
    }
}
