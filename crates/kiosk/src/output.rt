// The file that a command writes. A regular file is written under another name beside it, and gets its own only when it is
// whole: so where anything fails, nothing half-written is left, and what stood there before is still there.
use crate::failure::Failure;
use std::fs::File;
use std::io::{BufWriter, Write};
use std::{fs, io};

#[derive(Drop)]
pub(crate) struct Output<'a> {
    path: &'a str,
    // Where the bytes go until all of them are written; nothing where they go to the path itself.
    part: Option<String>,
    writer: BufWriter<File>,
}

// Whether there is something else than a regular file at a path, as a device: that is written to itself.
fn is_special(rt: &HostRuntime, path: &str) -> bool {
    match fs::metadata(rt, path) {
        Ok(there) => !there.is_file(),
        Err(_) => false,
    }
}

// Removes what was written beside the asked name. That a file cannot be removed is not told: what went wrong before is.
fn take_away(rt: &HostRuntime, part: Option<&String>) {
    if let Some(part) = part {
        let _ = fs::remove_file(rt, part.as_str());
    }
}

impl<'a> Output<'a> {
    pub(crate) fn create(rt: &HostRuntime, path: &'a str) -> Result<Output<'a>, Failure<'a>> {
        let part = if is_special(rt, path) {
            None
        } else {
            Some(format!(in rt.alloc(); "{path}.part")?)
        };
        let file = match &part {
            Some(part) => File::create(rt, part.as_str()),
            None => File::create(rt, path),
        };
        let file = file.map_err(|error| Failure::Unwritten { path, error })?;
        match BufWriter::new(rt.alloc(), file) {
            Ok(writer) => Ok(Output { path, part, writer }),
            Err(error) => {
                take_away(rt, part.as_ref());
                Err(Failure::Unwritten { path, error })
            }
        }
    }

    pub(crate) fn write(&mut self, bytes: &[u8]) -> Result<(), Failure<'a>> {
        let path = self.path;
        self.writer
            .write_all(bytes)
            .map_err(|error| Failure::Unwritten { path, error })
    }

    // Writes the last bytes, and gives the file its own name.
    fn end(&mut self, rt: &HostRuntime) -> io::Result<()> {
        self.writer.flush()?;
        match &self.part {
            Some(part) => fs::rename(rt, part.as_str(), self.path),
            None => Ok(()),
        }
    }

    // Ends the file where all was well before.
    fn settle<T: Drop>(
        &mut self,
        rt: &HostRuntime,
        outcome: Result<T, Failure<'a>>,
    ) -> Result<T, Failure<'a>> {
        let value = outcome?;
        let path = self.path;
        match self.end(rt) {
            Ok(()) => Ok(value),
            Err(error) => Err(Failure::Unwritten { path, error }),
        }
    }

    // Ends the file where all was well before, and else takes away what was written. Returns what came of it all.
    pub(crate) fn finish<T: Drop>(
        mut self,
        rt: &HostRuntime,
        outcome: Result<T, Failure<'a>>,
    ) -> Result<T, Failure<'a>> {
        let outcome = self.settle(rt, outcome);
        if outcome.is_err() {
            take_away(rt, self.part.as_ref());
        }
        outcome
    }
}
