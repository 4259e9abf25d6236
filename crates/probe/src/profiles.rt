// Profiles of a request: opened alone or as a chain, or the fault that is answered in their place.
use crate::stages::stage_answer;
use crate::words::{Unread, Words};
use profile::{ChainError, ChainRoom, ElementChain, Fault, Source, Tag, open, open_chain};
use stage::{Colour, Rated};
use std::alloc::{AllocError, Global};

// A profile's bytes, and which element of it is asked for.
#[derive(Drop)]
pub(crate) struct Profile {
    tag: Tag,
    bytes: Vec<u8>,
}

impl Profile {
    pub(crate) fn read(heap: Global, words: &mut Words<'_>) -> Result<Profile, Unread> {
        let tag = words.tag()?;
        let bytes = words.bytes(heap)?;
        Ok(Profile { tag, bytes })
    }

    fn source(&self) -> Source<'_> {
        Source {
            bytes: self.bytes.as_slice(),
            tag: self.tag,
        }
    }
}

// One profile or more.
#[derive(Drop)]
pub(crate) struct Profiles {
    first: Profile,
    rest: Vec<Profile>,
}

impl Profiles {
    // So many as the first word says, which is one or more.
    pub(crate) fn read(heap: Global, words: &mut Words<'_>) -> Result<Profiles, Unread> {
        let count = words.number::<usize>()?;
        let behind = count.checked_sub(1).ok_or(Unread::Bad)?;
        let first = Profile::read(heap, words)?;
        let mut rest = Vec::new(heap);
        for _ in 0..behind {
            rest.push(Profile::read(heap, words)?)?;
        }
        Ok(Profiles { first, rest })
    }
}

// Number, layer and place of a fault.
fn fault_answer(heap: Global, fault: Fault) -> Result<String, AllocError> {
    let number = fault.number();
    let layer = fault.layer().number();
    let place = fault.place();
    format!(in heap; "fault {number} {layer} {place}")
}

pub(crate) fn profile_answer(
    heap: Global,
    profile: &Profile,
    colours: &[Colour],
) -> Result<String, AllocError> {
    match open(profile.bytes.as_slice(), profile.tag) {
        Ok(opened) => stage_answer(heap, &Rated::new(opened.element), colours),
        Err(fault) => fault_answer(heap, fault),
    }
}

// Why a chain is not opened, with the position of the profile.
pub(crate) fn chain_refused(heap: Global, error: ChainError) -> Result<String, AllocError> {
    match error {
        ChainError::Profile { position, fault } => {
            let mut text = fault_answer(heap, fault)?;
            write!(text, " {position}")?;
            Ok(text)
        }
        ChainError::Spaces { position } => format!(in heap; "fault 13 - - {position}"),
        ChainError::Room => Err(AllocError),
    }
}

// The chain of the profiles, opened or refused.
pub(crate) fn chain_of<'a>(
    heap: Global,
    profiles: &'a Profiles,
) -> Result<Result<ElementChain<'a>, ChainError>, AllocError> {
    let rest: Vec<Source<'a>> = profiles
        .rest
        .iter()
        .map(|profile| profile.source())
        .collect(heap)?;
    let slots = Vec::with_capacity(heap, ChainRoom::slots(rest.len() + 1))?;
    let room = ChainRoom::over(slots);
    Ok(open_chain(room, &profiles.first.source(), rest.as_slice()))
}

pub(crate) fn chain_answer(
    heap: Global,
    profiles: &Profiles,
    colours: &[Colour],
) -> Result<String, AllocError> {
    match chain_of(heap, profiles)? {
        Ok(chain) => stage_answer(heap, &Rated::new(chain), colours),
        Err(error) => chain_refused(heap, error),
    }
}
