// The profiles that a job names: their files, and what is said where they cannot be opened.
use crate::job::ProfileTask;
use anyhow::{Context, bail};
use profile::{ChainError, ChainRoom, ElementChain, Report, Source, open_chain};
use std::{fmt, fs};

// Why profiles are not opened, as a sentence.
#[derive(Clone, Copy)]
struct NotOpened(ChainError);

impl fmt::Display for NotOpened {
    fn fmt<W: fmt::Write>(&self, f: &mut fmt::Formatter<W>) -> fmt::Result {
        let Some(Report { number, position }) = self.0.report() else {
            return f.write_str("there is room for fewer profiles");
        };
        write!(f, "profile {position}, counted from 0: fault {number}, ")?;
        match self.0 {
            ChainError::Profile { fault, .. } => {
                let layer = fault.layer();
                let place = fault.place();
                write!(f, "{layer}, byte {place}: {fault}")
            }
            _ => f.write_str("it does not take the space that the profile before it gives"),
        }
    }
}

// The bytes of a profile. A path that does not begin at the root begins in the folder.
fn file_of(rt: &HostRuntime, path: &str, folder: &str) -> anyhow::Result<Vec<u8>> {
    let folder = if path.starts_with('/') { "" } else { folder };
    let path = format!(in rt.alloc(); "{folder}{path}")?;
    match fs::read(rt, path.as_str()) {
        Ok(bytes) => Ok(bytes),
        Err(error) => bail!("the profile {path} cannot be read: {error}"),
    }
}

// The bytes of each profile.
pub(crate) fn files_of(
    rt: &HostRuntime,
    profiles: &[ProfileTask],
    folder: &str,
) -> anyhow::Result<Vec<Vec<u8>>> {
    let mut files = Vec::new(rt.alloc());
    for profile in profiles {
        files.push(file_of(rt, profile.path.as_str(), folder)?)?;
    }
    Ok(files)
}

// The chain of the profiles, or a sentence that says which fault which of them has.
pub(crate) fn opened<'a>(
    rt: &HostRuntime,
    profiles: &[ProfileTask],
    files: &'a [Vec<u8>],
) -> anyhow::Result<ElementChain<'a>> {
    let mut sources = Vec::new(rt.alloc());
    for (profile, file) in profiles.iter().zip(files) {
        sources.push(Source {
            bytes: file.as_slice(),
            tag: profile.tag,
        })?;
    }
    let (first, rest) = sources
        .as_slice()
        .split_first()
        .context("a chain has one profile or more")?;
    let slots = Vec::with_capacity(rt.alloc(), ChainRoom::slots(sources.len()))?;
    match open_chain(ChainRoom::over(slots), first, rest).map_err(NotOpened) {
        Ok(chain) => Ok(chain),
        Err(error) => {
            println!(rt; "  not opened, {error}")?;
            bail!("the profiles were not opened")
        }
    }
}
