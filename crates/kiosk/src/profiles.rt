// The profiles that a call names: their files, and their chain, or what is wrong with one of them.
use crate::failure::{Failure, Told};
use profile::{ChainError, ChainRoom, ElementChain, Source, Tag, open, open_chain};
use std::alloc::AllocError;
use std::fs;

// An element of a profile, as the call names it.
#[derive(Clone, Copy)]
pub(crate) struct Named<'a> {
    pub text: &'a str,
    pub tag: Tag,
    pub path: &'a str,
}

impl<'a> Named<'a> {
    // What TAG:FILE names, or nothing where the text has not that form.
    pub(crate) fn of(text: &'a str) -> Option<Named<'a>> {
        let (tag, path) = text.split_once(':')?;
        let tag = match tag {
            "A2B0" => Tag::A2B0,
            "B2A0" => Tag::B2A0,
            _ => return None,
        };
        (!path.is_empty()).then_some(Named { text, tag, path })
    }
}

// The bytes of a file.
pub(crate) fn file_of<'a>(rt: &HostRuntime, path: &'a str) -> Result<Vec<u8>, Failure<'a>> {
    fs::read(rt, path).map_err(|error| Failure::Unread { path, error })
}

// The bytes of each profile.
pub(crate) fn files_of<'a>(
    rt: &HostRuntime,
    profiles: &[Named<'a>],
) -> Result<Vec<Vec<u8>>, Failure<'a>> {
    let mut files = Vec::new(rt.alloc());
    for profile in profiles {
        files.push(file_of(rt, profile.path)?)?;
    }
    Ok(files)
}

// A profile as the call names it.
fn text_at<'a>(profiles: &[Named<'a>], position: usize) -> &'a str {
    match profiles.get(position) {
        Some(named) => named.text,
        None => "a profile",
    }
}

// What is wrong with the profile at a position that does not take what the one before it gives.
fn apart<'a>(profiles: &[Named<'a>], files: &[Vec<u8>], position: usize) -> Option<Failure<'a>> {
    let earlier = position.checked_sub(1)?;
    let before = profiles.get(earlier)?;
    let behind = profiles.get(position)?;
    let gives = open(files.get(earlier)?.as_slice(), before.tag).ok()?.gives;
    let takes = open(files.get(position)?.as_slice(), behind.tag)
        .ok()?
        .takes;
    Some(Failure::Spaces {
        before: before.text,
        gives,
        behind: behind.text,
        takes,
    })
}

// What is wrong with a chain, in the words of the call.
fn failure_of<'a>(profiles: &[Named<'a>], files: &[Vec<u8>], error: ChainError) -> Failure<'a> {
    match error {
        ChainError::Profile { position, fault } => Failure::Profile {
            profile: text_at(profiles, position),
            fault: Told(fault),
        },
        ChainError::Spaces { position } => {
            apart(profiles, files, position).unwrap_or(Failure::NoChain)
        }
        ChainError::Room => Failure::Memory(AllocError),
    }
}

// The chain of the profiles.
pub(crate) fn opened<'f, 'a>(
    rt: &HostRuntime,
    profiles: &[Named<'a>],
    files: &'f [Vec<u8>],
) -> Result<ElementChain<'f>, Failure<'a>> {
    let mut sources = Vec::new(rt.alloc());
    for (profile, file) in profiles.iter().zip(files) {
        sources.push(Source {
            bytes: file.as_slice(),
            tag: profile.tag,
        })?;
    }
    let Some((first, rest)) = sources.as_slice().split_first() else {
        return Err(Failure::NoChain);
    };
    let slots = Vec::with_capacity(rt.alloc(), ChainRoom::slots(sources.len()))?;
    open_chain(ChainRoom::over(slots), first, rest).map_err(|error| failure_of(
        profiles, files, error,
    ))
}
