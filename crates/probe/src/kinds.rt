// Pixel kinds by name, and their pixels as raw samples.
use crate::words::{Unread, Words};
use link::{Cmyk, Gray, Pixel, Rgb};
use stage::Sample;
use std::alloc::{AllocError, Global};
use std::fmt::Display;
use std::num::TryFromIntError;

#[derive(Clone, Copy)]
pub(crate) enum KindName {
    Gray8,
    Rgb8,
    Cmyk8,
    Rgb16,
}

impl KindName {
    pub(crate) fn read(words: &mut Words<'_>) -> Result<KindName, Unread> {
        match words.word()? {
            "g8" => Ok(KindName::Gray8),
            "r8" => Ok(KindName::Rgb8),
            "c8" => Ok(KindName::Cmyk8),
            "r16" => Ok(KindName::Rgb16),
            _ => Err(Unread::Bad),
        }
    }

    fn channels(self) -> usize {
        match self {
            KindName::Gray8 => 1,
            KindName::Rgb8 | KindName::Rgb16 => 3,
            KindName::Cmyk8 => 4,
        }
    }

    // The largest sample.
    fn largest(self) -> u16 {
        match self {
            KindName::Gray8 | KindName::Rgb8 | KindName::Cmyk8 => 255,
            KindName::Rgb16 => 65_535,
        }
    }

    // The raw samples of so many pixels.
    pub(crate) fn samples(
        self,
        heap: Global,
        pixels: usize,
        words: &mut Words<'_>,
    ) -> Result<Vec<u16>, Unread> {
        let count = pixels.checked_mul(self.channels()).ok_or(Unread::Bad)?;
        let samples = words.counts(heap, count)?;
        if samples.iter().any(|sample| *sample > self.largest()) {
            return Err(Unread::Bad);
        }
        Ok(samples)
    }
}

// A sample that is told as a plain number.
pub(crate) trait Number: Sample + Display + TryFrom<u16, Error = TryFromIntError> {}

impl Number for u8 {}

impl Number for u16 {}

// A pixel kind whose pixels are told as one number for each channel.
pub(crate) trait Raw: Pixel {
    // The pixel of the first numbers, one for each channel, if they are numbers of its samples.
    fn of(samples: &[u16]) -> Option<Self>;

    // Puts the numbers of the pixel behind a text, with a space before each.
    fn put(&self, text: &mut String) -> Result<(), AllocError>;
}

// The sample that is told as a number.
fn sample<S: Number>(samples: &[u16], channel: usize) -> Option<S> {
    S::try_from(*samples.get(channel)?).ok()
}

impl<S: Number> Raw for Gray<S> {
    fn of(samples: &[u16]) -> Option<Gray<S>> {
        Some(Gray {
            value: sample(samples, 0)?,
        })
    }

    fn put(&self, text: &mut String) -> Result<(), AllocError> {
        write!(text, " {}", self.value)
    }
}

impl<S: Number> Raw for Rgb<S> {
    fn of(samples: &[u16]) -> Option<Rgb<S>> {
        Some(Rgb {
            red: sample(samples, 0)?,
            green: sample(samples, 1)?,
            blue: sample(samples, 2)?,
        })
    }

    fn put(&self, text: &mut String) -> Result<(), AllocError> {
        write!(text, " {} {} {}", self.red, self.green, self.blue)
    }
}

impl<S: Number> Raw for Cmyk<S> {
    fn of(samples: &[u16]) -> Option<Cmyk<S>> {
        Some(Cmyk {
            cyan: sample(samples, 0)?,
            magenta: sample(samples, 1)?,
            yellow: sample(samples, 2)?,
            black: sample(samples, 3)?,
        })
    }

    fn put(&self, text: &mut String) -> Result<(), AllocError> {
        write!(
            text,
            " {} {} {} {}",
            self.cyan, self.magenta, self.yellow, self.black
        )
    }
}

// Pixels from the numbers of their samples, one pixel after the other, up to one that is none.
pub(crate) fn pixels<P: Raw>(heap: Global, samples: &[u16]) -> Result<Vec<P>, AllocError> {
    samples
        .chunks(P::channels().number())
        .map_while(|part| P::of(part))
        .collect(heap)
}
