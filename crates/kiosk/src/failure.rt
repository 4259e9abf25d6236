// Why a command cannot be carried out. Each reason prints one sentence, which names the file that it is about. It is an enum and
// no `anyhow::Error`, which would cut a long path short.
use crate::figures::Many;
use crate::picture::BadPicture;
use link::Refusal;
use profile::{Fault, Space};
use std::alloc::AllocError;
use std::{fmt, io};
use thiserror::Error;

// A fault of a profile with all that is known of it.
#[derive(Clone, Copy, Debug)]
pub(crate) struct Told(pub Fault);

impl fmt::Display for Told {
    fn fmt<W: fmt::Write>(&self, f: &mut fmt::Formatter<W>) -> fmt::Result {
        let fault = self.0;
        let number = fault.number();
        let layer = fault.layer();
        let layer_number = layer.number();
        let place = fault.place();
        write!(
            f,
            "fault {number}, layer {layer_number} ({layer}), byte {place}: {fault}"
        )
    }
}

// Profiles are named as the call names them, by tag and file.
#[derive(Debug, Drop, Error)]
pub(crate) enum Failure<'a> {
    #[error("{path} cannot be read: {error}")]
    Unread {
        path: &'a str,
        error: io::Error,
    },
    #[error("{path} cannot be written: {error}")]
    Unwritten {
        path: &'a str,
        error: io::Error,
    },
    #[error("{path}: {fault}")]
    Header {
        path: &'a str,
        fault: Told,
    },
    #[error("{path}: {tag}: {fault}")]
    Element {
        path: &'a str,
        tag: &'static str,
        fault: Told,
    },
    #[error("{path} has neither A2B0 nor B2A0")]
    NoElement {
        path: &'a str,
    },
    #[error("{profile}: {fault}")]
    Profile {
        profile: &'a str,
        fault: Told,
    },
    #[error("{before} gives {gives}, and {behind} takes {takes}: they do not meet, number 13")]
    Spaces {
        before: &'a str,
        gives: Space,
        behind: &'a str,
        takes: Space,
    },
    #[error("the profiles make no chain")]
    NoChain,
    #[error("{path}: {bad}")]
    Picture {
        path: &'a str,
        bad: BadPicture,
    },
    #[error("{path} has {has}, and the profiles take {takes}")]
    PictureChannels {
        path: &'a str,
        has: Many,
        takes: usize,
    },
    #[error("{colour} is a colour of {has}, and the profiles take {takes}")]
    ColourChannels {
        colour: &'a str,
        has: Many,
        takes: usize,
    },
    #[error("refused, {number}: {refusal}")]
    Refused {
        number: u8,
        refusal: Refusal,
    },
    #[error("what is told cannot be printed: {0}")]
    Unprinted(#[from] io::Error),
    #[error("there is not enough memory")]
    Memory(#[from(alloc)] AllocError),
}

impl From<Refusal> for Failure<'_> {
    fn from(refusal: Refusal) -> Self {
        Failure::Refused {
            number: refusal.number(),
            refusal,
        }
    }
}
